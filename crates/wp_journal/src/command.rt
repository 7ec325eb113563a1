//! Commands as words. What isn't tested here is tested where the line is compared.
ghost use Rattle.std.specs.Prelude.{◌≡◌, IfOk, length, vec_len};
ghost use Rattle.wp_journal.specs.Commands.{command_in, missing_in, names_in, other_command, pick_in, receipt_in};
ghost use Rattle.wp_journal.specs.Commands.{submission_in, wave_command};
ghost use Rattle.wp_journal.specs.Reading.{Gives, GivesBy};
ghost use Rattle.wp_journal.specs.Splits.{words_now};

use crate::fault::EntryFault;
use crate::number::read_small;
use std::alloc::Global;
use wp_model::{Command, Location, MOST_NAMED, Name, Names};

fn read_names(alloc: Global, words: &[&[u8]]) -> Result<Vec<Name>, EntryFault>
    ensures names { GivesBy (λ names. names.items) result (names_in (words_now words.now)) }
    ensures len { IfOk result (λ names. vec_len names ≡ length words.now) }
{
    let mut names = Vec::new(alloc);
    for word in words {
        let name = Name::new(word).ok_or(EntryFault::NotEntry)?;
        names.push(name)?;
    }
    Ok(names)
}

fn read_submission(alloc: Global, arguments: &[&[u8]]) -> Result<Command, EntryFault>
    ensures { Gives result (submission_in (words_now arguments.now)) }
{
    let [wave, orders @ ..] = arguments else {
        return Err(EntryFault::NotEntry);
    };
    if orders.len() > MOST_NAMED as usize {
        return Err(EntryFault::NotEntry);
    }
    let wave = Name::new(wave).ok_or(EntryFault::NotEntry)?;
    let orders = read_names(alloc, orders)?;
    let orders = Names::of(orders);
    Ok(Command::Submit { wave, orders })
}

fn wave_command(word: &[u8], wave: Name) -> Option<Command>
    ensures { result ≡ wave_command word.now wave }
{
    if word == b"allot".as_slice() {
        Some(Command::Allot { wave })
    } else if word == b"release".as_slice() {
        Some(Command::Release { wave })
    } else if word == b"cancel".as_slice() {
        Some(Command::Cancel { wave })
    } else {
        None
    }
}

fn read_receipt(location: &[u8], article: &[u8], quantity: &[u8]) -> Option<Command>
    ensures { result ≡ receipt_in location.now article.now quantity.now }
{
    let location = Location::read(location)?;
    let article = Name::new(article)?;
    let quantity = read_small(quantity)?;
    Some(Command::Receive {
        location,
        article,
        quantity,
    })
}

fn read_pick(wave: &[u8], order: &[u8], location: &[u8], quantity: &[u8]) -> Option<Command>
    ensures { result ≡ pick_in wave.now order.now location.now quantity.now }
{
    let wave = Name::new(wave)?;
    let order = Name::new(order)?;
    let location = Location::read(location)?;
    let quantity = read_small(quantity)?;
    Some(Command::Pick {
        wave,
        order,
        location,
        quantity,
    })
}

fn read_missing(wave: &[u8], order: &[u8], location: &[u8], quantity: &[u8]) -> Option<Command>
    ensures { result ≡ missing_in wave.now order.now location.now quantity.now }
{
    let wave = Name::new(wave)?;
    let order = Name::new(order)?;
    let location = Location::read(location)?;
    let quantity = read_small(quantity)?;
    Some(Command::Missing {
        wave,
        order,
        location,
        quantity,
    })
}

fn read_other(word: &[u8], arguments: &[&[u8]]) -> Option<Command>
    ensures { result ≡ other_command word.now (words_now arguments.now) }
{
    match arguments {
        [wave] => wave_command(word, Name::new(wave)?),
        [location, article, quantity] => read_receipt(location, article, quantity),
        [wave, order, location, quantity] => {
            if word == b"pick".as_slice() {
                read_pick(wave, order, location, quantity)
            } else {
                read_missing(wave, order, location, quantity)
            }
        }
        [_, _] => None,
        _ => None,
    }
}

/// The command that words write.
pub fn read_command(alloc: Global, words: &[&[u8]]) -> Result<Command, EntryFault>
    ensures { Gives result (command_in (words_now words.now)) }
{
    let [word, arguments @ ..] = words else {
        return Err(EntryFault::NotEntry);
    };
    if *word == b"submit".as_slice() {
        return read_submission(alloc, arguments);
    }
    read_other(word, arguments).ok_or(EntryFault::NotEntry)
}
