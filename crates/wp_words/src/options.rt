ghost use Rattle.std.specs.Prelude.{◌≡◌, List, ℕ, [], IfOk, IfErr, Some, Ok, string_bytes, true, false};
ghost use Rattle.clap.specs.Words.{app_of, rule_of, first_of, found_of, is_simple_and_free, one_of, rows_of};
ghost use Rattle.wp_words.specs.Options.{IsMatchOf, audit_command, budget_rule, capacity_rule, check_command};
ghost use Rattle.wp_words.specs.Options.{command_with, count_rule, make_command, named_rule};
ghost use Rattle.wp_words.specs.Options.{nodes_rule, number_rule, plan_command, required_rule, switch_rule, units_rule};
ghost use Rattle.wp_words.specs.Options.{workers_rule};
ghost use Rattle.wp_words.specs.Reading.{IsFaultOf, texts_of};
ghost use Rattle.wp_words.specs.Words.{matched, number_read};

use crate::fault::WordsFault;
use clap::error::ErrorKind;
use clap::{Arg, ArgAction, ArgMatches, Command, value_parser};
use std::alloc::{AllocError, Global};
use std::str::FromStr;
use wp_model::{
    GREATEST_DESK, MOST_AISLES, MOST_CART_UNITS, MOST_FILE_ORDERS, MOST_WAVE_ORDERS, Memory,
};

/// The most orders that a batch may have.
const MOST_CAPACITY: i64 = 8;

/// The greatest budget.
const MOST_BUDGET: i64 = 1_000_000_000_000_000_000;

/// The most nodes.
const MOST_NODES: i64 = 1_000_000_000;

/// The most workers.
const MOST_WORKERS: i64 = 16;

/// The greatest number of rules.
const MOST_RULES: u32 = 1;

/// The greatest number for the root.
const MOST_ROOT: u32 = 1;

/// The greatest number for the store.
const MOST_STORE: u32 = 1;

/// The most pickers.
const MOST_PICKERS: u32 = 100;

/// An option that may be given, and at most once.
fn named_option<'a>(alloc: Global, name: &'a str) -> Arg<'a>
    ensures rule { rule_of result ≡ named_rule name.entry.now }
    ensures local { result.global ≡ false }
{
    Arg::new(alloc, name).long(name).action(ArgAction::Set)
}

/// An option that has to be given, and once.
fn required_option<'a>(alloc: Global, name: &'a str) -> Arg<'a>
    ensures rule { rule_of result ≡ required_rule name.entry.now }
    ensures local { result.global ≡ false }
{
    named_option(alloc, name).required(true)
}

/// The option of the capacity.
fn capacity_option<'a>(alloc: Global) -> Arg<'a>
    ensures rule { rule_of result ≡ capacity_rule }
    ensures local { result.global ≡ false }
{
    required_option(alloc, "capacity").value_parser(value_parser!(u32).range(1..=MOST_CAPACITY))
}

/// The option of the units that a cart holds.
fn units_option<'a>(alloc: Global) -> Arg<'a>
    ensures rule { rule_of result ≡ units_rule }
    ensures local { result.global ≡ false }
{
    let range = value_parser!(u32).range(1..=i64::from(MOST_CART_UNITS));
    named_option(alloc, "units").value_parser(range)
}

/// The option of the budget.
fn budget_option<'a>(alloc: Global) -> Arg<'a>
    ensures rule { rule_of result ≡ budget_rule }
    ensures local { result.global ≡ false }
{
    named_option(alloc, "budget").value_parser(value_parser!(u64).range(0..=MOST_BUDGET))
}

/// The option of the nodes, which stand in the budget's place.
fn nodes_option<'a>(alloc: Global) -> Arg<'a>
    ensures rule { rule_of result ≡ nodes_rule }
    ensures local { result.global ≡ false }
{
    named_option(alloc, "nodes").value_parser(value_parser!(u64).range(1..=MOST_NODES))
}

/// The option of the number of workers.
fn workers_option<'a>(alloc: Global) -> Arg<'a>
    ensures rule { rule_of result ≡ workers_rule }
    ensures local { result.global ≡ false }
{
    named_option(alloc, "workers")
        .value_parser(value_parser!(u32).range(1..=MOST_WORKERS))
        .default_value("1")
}

/// A switch: an option that may be given, a number from 0 to this one, which is 0 where it isn't given.
fn switch_option<'a>(alloc: Global, name: &'a str, most: u32) -> Arg<'a>
    ensures rule { rule_of result ≡ switch_rule name.entry.now most }
    ensures local { result.global ≡ false }
{
    named_option(alloc, name)
        .value_parser(value_parser!(u32).range(0..=i64::from(most)))
        .default_value("0")
}

/// The option of the number that a day is drawn from.
fn number_option<'a>(alloc: Global) -> Arg<'a>
    ensures rule { rule_of result ≡ number_rule }
    ensures local { result.global ≡ false }
{
    required_option(alloc, "number").value_parser(value_parser!(u64))
}

/// An option that has to be given, a number from 1 to this one.
fn count_option<'a>(alloc: Global, name: &'a str, most: u32) -> Arg<'a>
    ensures rule { rule_of result ≡ count_rule name.entry.now most }
    ensures local { result.global ≡ false }
{
    required_option(alloc, name).value_parser(value_parser!(u32).range(1..=i64::from(most)))
}

/// A command with no options yet.
fn bare_command<'a>(alloc: Global, mode: &'a str) -> Command<'a>
    ensures { app_of result ≡ command_with mode.entry.now [] }
{
    Command::new(alloc, mode)
        .no_binary_name(true)
        .disable_help_flag(true)
}

/// The options of `plan`.
pub fn plan_command<'a>(alloc: Global) -> Result<Command<'a>, AllocError>
    ensures { IfOk result (λ command. app_of command ≡ plan_command) }
{
    let command = bare_command(alloc, "plan")
        .arg(required_option(alloc, "layout"))?
        .arg(required_option(alloc, "stock"))?
        .arg(required_option(alloc, "orders"))?
        .arg(required_option(alloc, "desks"))?
        .arg(capacity_option(alloc))?
        .arg(units_option(alloc))?
        .arg(budget_option(alloc))?
        .arg(nodes_option(alloc))?
        .arg(workers_option(alloc))?
        .arg(switch_option(alloc, "rules", MOST_RULES))?
        .arg(switch_option(alloc, "pickers", MOST_PICKERS))?
        .arg(switch_option(alloc, "root", MOST_ROOT))?
        .arg(switch_option(alloc, "store", MOST_STORE))?;
    Ok(command)
}

/// The options of `check`.
pub fn check_command<'a>(alloc: Global) -> Result<Command<'a>, AllocError>
    ensures { IfOk result (λ command. app_of command ≡ check_command) }
{
    let command = bare_command(alloc, "check")
        .arg(required_option(alloc, "layout"))?
        .arg(required_option(alloc, "certificate"))?;
    Ok(command)
}

/// The options of `audit`.
pub fn audit_command<'a>(alloc: Global) -> Result<Command<'a>, AllocError>
    ensures { IfOk result (λ command. app_of command ≡ audit_command) }
{
    let command = bare_command(alloc, "audit")
        .arg(required_option(alloc, "layout"))?
        .arg(required_option(alloc, "stock"))?
        .arg(required_option(alloc, "orders"))?
        .arg(required_option(alloc, "journal"))?
        .arg(units_option(alloc))?;
    Ok(command)
}

/// The options of `make`.
pub fn make_command<'a>(alloc: Global) -> Result<Command<'a>, AllocError>
    ensures { IfOk result (λ command. app_of command ≡ make_command) }
{
    let command = bare_command(alloc, "make")
        .arg(number_option(alloc))?
        .arg(count_option(alloc, "aisles", MOST_AISLES))?
        .arg(count_option(alloc, "orders", MOST_FILE_ORDERS))?
        .arg(count_option(alloc, "desks", GREATEST_DESK))?
        .arg(count_option(alloc, "wave", MOST_WAVE_ORDERS))?
        .arg(capacity_option(alloc))?
        .arg(budget_option(alloc))?
        .arg(nodes_option(alloc))?
        .arg(workers_option(alloc))?;
    Ok(command)
}

/// What words match of a command.
pub fn matched<'a>(command: Command<'a>, words: &'a [String]) -> Result<ArgMatches<'a>, WordsFault>
    requires simple { is_simple_and_free (app_of command) ≡ true }
    ensures rows { IfOk result (λ matches. matched (app_of command.entry) (texts_of words.entry.now)
        ≡ Ok (rows_of (found_of matches))) }
    ensures of_command { IfOk result (IsMatchOf (app_of command.entry)) }
    ensures fault { IfErr result (IsFaultOf (matched (app_of command.entry)
        (texts_of words.entry.now))) }
{
    match command.try_get_matches_from(words) {
        Ok(matches) => Ok(matches),
        Err(error) => match error.kind() {
            ErrorKind::OutOfMemory => Err(WordsFault::Memory),
            _ => Err(WordsFault::BadWords),
        },
    }
}

/// The value that an option got.
pub fn value_of(alloc: Global, matches: &ArgMatches<'_>, name: &str) -> Result<String, Memory>
    ensures { IfOk result (λ value. first_of name.now (rows_of (found_of matches.now))
        ≡ Some (string_bytes value)) }
{
    let Some(value) = matches.get_str(name) else {
        return Err(Memory);
    };
    let value = String::from_str(alloc, value)?;
    Ok(value)
}

/// The number that an option got.
pub fn number_of<T: FromStr>(matches: &ArgMatches<'_>, name: &str) -> Result<T, Memory>
where
    T::Err: Drop,
    ensures { IfOk result (λ number. (text : List ℕ)
        × (one_of name.now (rows_of (found_of matches.now)) ≡ Some text)
        × T.from_str_gives text (Ok number)) }
{
    match matches.get_one::<T>(name) {
        Some(number) => Ok(number),
        None => Err(Memory),
    }
}

/// The number that an option got, if it was given.
pub fn number_if_given(matches: &ArgMatches<'_>, name: &str) -> Result<Option<u32>, Memory>
    ensures { IfOk result (λ number. number_read name.now (rows_of (found_of matches.now))
        ≡ number) }
{
    match matches.try_get_one::<u32>(name) {
        Ok(number) => Ok(number),
        Err(_) => Err(Memory),
    }
}

/// The long number that an option got, if it was given.
pub fn long_if_given(matches: &ArgMatches<'_>, name: &str) -> Result<Option<u64>, Memory>
    ensures { IfOk result (λ number. number_read name.now (rows_of (found_of matches.now))
        ≡ number) }
{
    match matches.try_get_one::<u64>(name) {
        Ok(long) => Ok(long),
        Err(_) => Err(Memory),
    }
}
