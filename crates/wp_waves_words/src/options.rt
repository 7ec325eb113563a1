ghost use Rattle.std.specs.Prelude.{◌≡◌, [], IfOk, IfErr, Some, Ok, option_map, string_bytes, true, false};
ghost use Rattle.clap.specs.Words.{app_of, rule_of, first_of, found_of, is_simple_and_free, one_of, rows_of};
ghost use Rattle.wp_waves_words.specs.Options.{ranged_rule, waves_command};
ghost use Rattle.wp_waves_words.specs.Reading.{text_if_given};
ghost use Rattle.wp_words.specs.Options.{IsMatchOf, capacity_rule, command_with, count_rule, named_rule, required_rule};
ghost use Rattle.wp_words.specs.Options.{units_rule};
ghost use Rattle.wp_words.specs.Reading.{IsFaultOf, texts_of};
ghost use Rattle.wp_words.specs.Words.{matched, number_read};

use clap::error::ErrorKind;
use clap::{Arg, ArgAction, ArgMatches, Command, value_parser};
use std::alloc::{AllocError, Global};
use std::str::FromStr;
use wp_model::{GREATEST_DESK, MOST_CART_UNITS, MOST_SUBMISSIONS, MOST_WAVE_ORDERS, Memory};
use wp_words::WordsFault;

/// The most orders that a batch may have.
const MOST_CAPACITY: u32 = 8;

/// The greatest effort.
const MOST_EFFORT: u32 = 1000;

/// An option that may be given, and at most once.
fn named_option<'a>(alloc: Global, name: &'a str) -> Arg<'a>
    ensures rule { rule_of result ≡ named_rule name.entry.now }
    ensures local { result.global ≡ false }
{
    Arg::new(alloc, name).long(name).action(ArgAction::Set)
}

/// An option that has to be given, and once.
fn required_option<'a>(alloc: Global, name: &'a str) -> Arg<'a>
    ensures rule { rule_of result ≡ required_rule name.entry.now }
    ensures local { result.global ≡ false }
{
    named_option(alloc, name).required(true)
}

/// An option that has to be given, a number from 1 to this one.
fn count_option<'a>(alloc: Global, name: &'a str, most: u32) -> Arg<'a>
    ensures rule { rule_of result ≡ count_rule name.entry.now most }
    ensures local { result.global ≡ false }
{
    required_option(alloc, name).value_parser(value_parser!(u32).range(1..=i64::from(most)))
}

/// The option of the units that a cart holds.
fn units_option<'a>(alloc: Global) -> Arg<'a>
    ensures rule { rule_of result ≡ units_rule }
    ensures local { result.global ≡ false }
{
    let range = value_parser!(u32).range(1..=i64::from(MOST_CART_UNITS));
    named_option(alloc, "units").value_parser(range)
}

/// An option that may be given, a number from one to another, and is the usual one where it isn't.
fn ranged_option<'a>(alloc: Global, name: &'a str, least: u32, most: u32, usual: &'a str) -> Arg<'a>
    ensures rule { rule_of result ≡ ranged_rule name.entry.now least most usual.entry.now }
    ensures local { result.global ≡ false }
{
    named_option(alloc, name)
        .value_parser(value_parser!(u32).range(i64::from(least)..=i64::from(most)))
        .default_value(usual)
}

/// A command with no options yet.
fn bare_command<'a>(alloc: Global, mode: &'a str) -> Command<'a>
    ensures { app_of result ≡ command_with mode.entry.now [] }
{
    Command::new(alloc, mode)
        .no_binary_name(true)
        .disable_help_flag(true)
}

/// The options of `waves`.
pub fn waves_command<'a>(alloc: Global) -> Result<Command<'a>, AllocError>
    ensures { IfOk result (λ command. app_of command ≡ waves_command) }
{
    let command = bare_command(alloc, "waves")
        .arg(required_option(alloc, "layout"))?
        .arg(required_option(alloc, "stock"))?
        .arg(required_option(alloc, "orders"))?
        .arg(count_option(alloc, "wave", MOST_WAVE_ORDERS))?
        .arg(count_option(alloc, "capacity", MOST_CAPACITY))?
        .arg(units_option(alloc))?
        .arg(named_option(alloc, "open"))?
        .arg(named_option(alloc, "journal"))?
        .arg(ranged_option(alloc, "most", 1, MOST_SUBMISSIONS, "500"))?
        .arg(ranged_option(alloc, "desk", 1, GREATEST_DESK, "1"))?
        .arg(ranged_option(alloc, "effort", 0, MOST_EFFORT, "10"))?;
    Ok(command)
}

/// What words match of a command.
pub fn matched<'a>(command: Command<'a>, words: &'a [String]) -> Result<ArgMatches<'a>, WordsFault>
    requires simple { is_simple_and_free (app_of command) ≡ true }
    ensures rows { IfOk result (λ matches. matched (app_of command.entry) (texts_of words.entry.now)
        ≡ Ok (rows_of (found_of matches))) }
    ensures of_command { IfOk result (IsMatchOf (app_of command.entry)) }
    ensures fault { IfErr result (IsFaultOf (matched (app_of command.entry)
        (texts_of words.entry.now))) }
{
    match command.try_get_matches_from(words) {
        Ok(matches) => Ok(matches),
        Err(error) => match error.kind() {
            ErrorKind::OutOfMemory => Err(WordsFault::Memory),
            _ => Err(WordsFault::BadWords),
        },
    }
}

/// The value that an option got.
pub fn value_of(alloc: Global, matches: &ArgMatches<'_>, name: &str) -> Result<String, Memory>
    ensures { IfOk result (λ value. first_of name.now (rows_of (found_of matches.now))
        ≡ Some (string_bytes value)) }
{
    let Some(value) = matches.get_str(name) else {
        return Err(Memory);
    };
    let value = String::from_str(alloc, value)?;
    Ok(value)
}

/// The value that an option got, if it was given.
pub fn value_if_given(
    alloc: Global,
    matches: &ArgMatches<'_>,
    name: &str,
) -> Result<Option<String>, Memory>
    ensures { IfOk result (λ value. first_of name.now (rows_of (found_of matches.now))
        ≡ text_if_given value) }
{
    match matches.get_str(name) {
        Some(value) => Ok(Some(String::from_str(alloc, value)?)),
        None => Ok(None),
    }
}

/// The number that an option got.
pub fn number_of(matches: &ArgMatches<'_>, name: &str) -> Result<u32, Memory>
    ensures { IfOk result (λ number. number_read name.now (rows_of (found_of matches.now))
        ≡ Some number) }
{
    match number_if_given(matches, name)? {
        Some(number) => Ok(number),
        None => Err(Memory),
    }
}

/// The number that an option got, if it was given.
pub fn number_if_given(matches: &ArgMatches<'_>, name: &str) -> Result<Option<u32>, Memory>
    ensures { IfOk result (λ number. number_read name.now (rows_of (found_of matches.now))
        ≡ number) }
{
    match matches.try_get_one::<u32>(name) {
        Ok(number) => Ok(number),
        Err(_) => Err(Memory),
    }
}
