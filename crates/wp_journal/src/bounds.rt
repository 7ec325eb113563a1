//! The bounds of the journal's entries.
ghost use Rattle.std.specs.Prelude.{◌≡◌, ◌&&◌};
ghost use Rattle.std.specs.List.{list_all};
ghost use Rattle.wp_model.specs.Name.{is_name};
ghost use Rattle.wp_model.specs.Plain.{is_plain, is_plain_location, is_plain_quantity};
ghost use Rattle.wp_journal.specs.Grammar.{is_line_entry, is_line_reply, is_u32, is_u64};
ghost use Rattle.wp_model.specs.Plain.{has_names};

use wp_model::{
    Command, Entry, GREATEST_DESK, GREATEST_PLACE, Location, MOST_ENTRIES, MOST_NAMED,
    MOST_QUANTITY, Name, Reply,
};

fn is_name(name: &Name) -> bool
    ensures { result ≡ is_name name.now }
{
    !name.as_bytes().is_empty()
}

fn are_names(names: &[Name]) -> bool
    ensures { result ≡ list_all is_name names.now }
{
    names.iter().all(|name| is_name(name))
}

fn is_u32(number: u32) -> bool
    ensures { result ≡ is_u32 number }
{
    u64::from(number) < 1 << 32
}

fn is_u64(number: u64) -> bool
    ensures { result ≡ is_u64 number }
{
    u128::from(number) < 1 << 64
}

fn is_plain_location(location: &Location) -> bool
    ensures { result ≡ is_plain_location location.now }
{
    location.aisle <= GREATEST_PLACE && location.slot <= GREATEST_PLACE
}

fn is_plain_quantity(quantity: u32) -> bool
    ensures { result ≡ is_plain_quantity quantity }
{
    1 <= quantity && quantity <= MOST_QUANTITY
}

fn is_plain(command: &Command) -> bool
    ensures { result ≡ is_plain command.now }
{
    match command {
        Command::Submit { orders, .. } => orders.len() <= MOST_NAMED,
        Command::Allot { .. } | Command::Release { .. } | Command::Cancel { .. } => true,
        Command::Pick {
            location,
            quantity,
            ..
        } => is_plain_location(location) && is_plain_quantity(*quantity),
        Command::Missing {
            location,
            quantity,
            ..
        } => is_plain_location(location) && is_plain_quantity(*quantity),
        Command::Receive {
            location,
            quantity,
            ..
        } => is_plain_location(location) && is_plain_quantity(*quantity),
    }
}

fn has_names(command: &Command) -> bool
    ensures { result ≡ has_names command.now }
{
    match command {
        Command::Submit { wave, orders } => is_name(wave) && are_names(orders.as_slice()),
        Command::Allot { wave } => is_name(wave),
        Command::Release { wave } => is_name(wave),
        Command::Cancel { wave } => is_name(wave),
        Command::Pick { wave, order, .. } => is_name(wave) && is_name(order),
        Command::Missing { wave, order, .. } => is_name(wave) && is_name(order),
        Command::Receive { article, .. } => is_name(article),
    }
}

fn is_line_reply(reply: &Reply) -> bool
    ensures { result ≡ is_line_reply reply.now }
{
    match reply {
        Reply::Submitted | Reply::Allotted | Reply::Released => true,
        Reply::Cancelled | Reply::Picked | Reply::Received => true,
        Reply::Refilled(units) => is_plain_quantity(*units),
        Reply::Lost { article, units } => is_name(article) && is_plain_quantity(*units),
        Reply::NoOrders | Reply::KnownWave | Reply::UnknownWave => true,
        Reply::WaveFull(orders) => is_u32(*orders),
        Reply::UnknownOrder(order) => is_name(order),
        Reply::OrderTwice(order) => is_name(order),
        Reply::OrderTaken { order, wave } => is_name(order) && is_name(wave),
        Reply::OverCart { order, units } => is_name(order) && is_u32(*units),
        Reply::WrongState(_) | Reply::Picking | Reply::NoRow => true,
        Reply::Short {
            article,
            wanted,
            free,
        } => is_name(article) && is_u64(*wanted) && is_u64(*free),
        Reply::NotHeld(location) => is_plain_location(location),
        Reply::TooMuch(held) => is_u32(*held),
        Reply::OtherArticle(article) => is_name(article),
        Reply::TooMany(on_hand) => is_u32(*on_hand),
    }
}

/// Whether an entry is one of the journal: its number is below 10,000, the desk 1 to 8, the command plain, and the
/// location and the quantity of a reply `NotHeld`, `Refilled` or `Lost` are within a plain command's bounds.
pub fn is_line_entry(entry: &Entry) -> bool
    ensures { result ≡ is_line_entry entry.now }
{
    let numbered = entry.number < MOST_ENTRIES && 1 <= entry.desk && entry.desk <= GREATEST_DESK;
    numbered && is_plain(&entry.command) && has_names(&entry.command) && is_line_reply(&entry.reply)
}
