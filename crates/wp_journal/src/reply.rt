//! Replies as words. What isn't tested here is tested where the line is compared.
ghost use Rattle.std.specs.Prelude.{◌≡◌};
ghost use Rattle.wp_journal.specs.Replies.{is_refusal, loss_in, name_refusal, order_refusal, over_cart_in};
ghost use Rattle.wp_journal.specs.Replies.{plain_refusal, plain_reply, reply_in, short_in, state_of};
ghost use Rattle.wp_journal.specs.Replies.{taken_in, told_refusal};
ghost use Rattle.wp_journal.specs.Splits.{words_now};

use crate::number::{read_small, read_whole};
use wp_model::{Location, Name, Reply, WaveState};

fn plain_reply(word: &[u8]) -> Option<Reply>
    ensures { result ≡ plain_reply word.now }
{
    if word == b"submitted".as_slice() {
        Some(Reply::Submitted)
    } else if word == b"allotted".as_slice() {
        Some(Reply::Allotted)
    } else if word == b"released".as_slice() {
        Some(Reply::Released)
    } else if word == b"cancelled".as_slice() {
        Some(Reply::Cancelled)
    } else if word == b"picked".as_slice() {
        Some(Reply::Picked)
    } else if word == b"received".as_slice() {
        Some(Reply::Received)
    } else {
        None
    }
}

fn plain_refusal(why: &[u8]) -> Option<Reply>
    ensures { result ≡ plain_refusal why.now }
{
    if why == b"no-orders".as_slice() {
        Some(Reply::NoOrders)
    } else if why == b"known-wave".as_slice() {
        Some(Reply::KnownWave)
    } else if why == b"unknown-wave".as_slice() {
        Some(Reply::UnknownWave)
    } else if why == b"picking".as_slice() {
        Some(Reply::Picking)
    } else if why == b"no-row".as_slice() {
        Some(Reply::NoRow)
    } else {
        None
    }
}

fn read_state(word: &[u8]) -> Option<WaveState>
    ensures { result ≡ state_of word.now }
{
    if word == b"submitted".as_slice() {
        Some(WaveState::Submitted)
    } else if word == b"allotted".as_slice() {
        Some(WaveState::Allotted)
    } else if word == b"released".as_slice() {
        Some(WaveState::Released)
    } else if word == b"cancelled".as_slice() {
        Some(WaveState::Cancelled)
    } else if word == b"done".as_slice() {
        Some(WaveState::Done)
    } else {
        None
    }
}

fn name_refusal(why: &[u8], name: Name) -> Option<Reply>
    ensures { result ≡ name_refusal why.now name }
{
    if why == b"unknown-order".as_slice() {
        Some(Reply::UnknownOrder(name))
    } else if why == b"order-twice".as_slice() {
        Some(Reply::OrderTwice(name))
    } else if why == b"other-article".as_slice() {
        Some(Reply::OtherArticle(name))
    } else {
        None
    }
}

fn told_refusal(why: &[u8], told: &[u8]) -> Option<Reply>
    ensures { result ≡ told_refusal why.now told.now }
{
    if why == b"wrong-state".as_slice() {
        Some(Reply::WrongState(read_state(told)?))
    } else if why == b"not-held".as_slice() {
        Some(Reply::NotHeld(Location::read(told)?))
    } else if why == b"wave-full".as_slice() {
        Some(Reply::WaveFull(read_small(told)?))
    } else if why == b"too-much".as_slice() {
        Some(Reply::TooMuch(read_small(told)?))
    } else if why == b"too-many".as_slice() {
        Some(Reply::TooMany(read_small(told)?))
    } else {
        name_refusal(why, Name::new(told)?)
    }
}

fn read_loss(article: &[u8], units: &[u8]) -> Option<Reply>
    ensures { result ≡ loss_in article.now units.now }
{
    let article = Name::new(article)?;
    let units = read_small(units)?;
    Some(Reply::Lost { article, units })
}

fn read_taken(order: &[u8], wave: &[u8]) -> Option<Reply>
    ensures { result ≡ taken_in order.now wave.now }
{
    let order = Name::new(order)?;
    let wave = Name::new(wave)?;
    Some(Reply::OrderTaken { order, wave })
}

fn read_over_cart(order: &[u8], units: &[u8]) -> Option<Reply>
    ensures { result ≡ over_cart_in order.now units.now }
{
    let order = Name::new(order)?;
    let units = read_small(units)?;
    Some(Reply::OverCart { order, units })
}

fn order_refusal(why: &[u8], order: &[u8], told: &[u8]) -> Option<Reply>
    ensures { result ≡ order_refusal why.now order.now told.now }
{
    if why == b"over-cart".as_slice() {
        read_over_cart(order, told)
    } else {
        read_taken(order, told)
    }
}

fn read_short(article: &[u8], wanted: &[u8], free: &[u8]) -> Option<Reply>
    ensures { result ≡ short_in article.now wanted.now free.now }
{
    let article = Name::new(article)?;
    let wanted = read_whole(wanted)?;
    let free = read_whole(free)?;
    Some(Reply::Short {
        article,
        wanted,
        free,
    })
}

fn is_refusal(word: &[u8]) -> bool
    ensures { result ≡ is_refusal word.now }
{
    word == b"refused".as_slice()
}

/// The reply that words write.
pub fn read_reply(words: &[&[u8]]) -> Option<Reply>
    ensures { result ≡ reply_in (words_now words.now) }
{
    match words {
        [word] => plain_reply(word),
        [word, why] if is_refusal(word) => plain_refusal(why),
        [_, units] => Some(Reply::Refilled(read_small(units)?)),
        [word, why, told] if is_refusal(word) => told_refusal(why, told),
        [_, article, units] => read_loss(article, units),
        [_, why, order, told] => order_refusal(why, order, told),
        [_, _, article, wanted, free] => read_short(article, wanted, free),
        _ => None,
    }
}
