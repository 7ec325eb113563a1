ghost use Rattle.std.specs.Prelude.{◌≡◌, IfOk, IfErr, Ok};
ghost use Rattle.clap.specs.Words.{found_of, matches_of, rows_of};
ghost use Rattle.wp_words.specs.Options.{IsMatchOf, audit_command, check_command, make_command, plan_command};
ghost use Rattle.wp_words.specs.Reading.{IsFaultOf, audit_names, check_names, job_names, make_numbers, plan_names};
ghost use Rattle.wp_words.specs.Reading.{texts_of};
ghost use Rattle.wp_words.specs.Words.{AreAuditValues, AreCheckValues, AreInRange, AreMakeValues, ArePlanValues};
ghost use Rattle.wp_words.specs.Words.{AreStated, HasAuditRange, HasMakeRanges, HasRanges};
ghost use Rattle.wp_words.specs.Words.{IsMakeable, audit_said, check_said, job_said, make_given, make_said, plan_said};
ghost use Rattle.wp_words.specs.Words.{said_once};

use crate::effort::effort_of;
use crate::fault::WordsFault;
use crate::job::{AuditWords, CheckWords, Job, MakeWords, PlanWords};
use crate::options::{
    audit_command, check_command, make_command, matched, number_if_given, number_of, plan_command,
    value_of,
};
use clap::ArgMatches;
use std::alloc::Global;
use wp_model::{MOST_SUBMISSIONS, Memory};

fn plan_words(alloc: Global, matches: &ArgMatches<'_>) -> Result<PlanWords, WordsFault>
    ensures values { IfOk result (λ words. ArePlanValues (rows_of (found_of matches.now))
        (plan_names words)) }
    ensures fault { IfErr result (IsFaultOf (said_once (rows_of (found_of matches.now)))) }
{
    let effort = effort_of(matches)?;
    let capacity = number_of::<u32>(matches, "capacity")?;
    let units = number_if_given(matches, "units")?;
    let workers = number_of::<u32>(matches, "workers")?;
    let rules = number_of::<u32>(matches, "rules")?;
    let pickers = number_of::<u32>(matches, "pickers")?;
    let root = number_of::<u32>(matches, "root")?;
    let store = number_of::<u32>(matches, "store")?;
    let layout = value_of(alloc, matches, "layout")?;
    let stock = value_of(alloc, matches, "stock")?;
    let orders = value_of(alloc, matches, "orders")?;
    let desks = value_of(alloc, matches, "desks")?;
    Ok(PlanWords {
        layout,
        stock,
        orders,
        desks,
        capacity,
        units,
        budget: effort.budget,
        nodes: effort.nodes,
        workers,
        rules,
        pickers,
        root,
        store,
    })
}

fn check_words(alloc: Global, matches: &ArgMatches<'_>) -> Result<CheckWords, Memory>
    ensures { IfOk result (λ words. AreCheckValues (rows_of (found_of matches.now))
        (check_names words)) }
{
    let layout = value_of(alloc, matches, "layout")?;
    let certificate = value_of(alloc, matches, "certificate")?;
    Ok(CheckWords {
        layout,
        certificate,
    })
}

fn audit_words(alloc: Global, matches: &ArgMatches<'_>) -> Result<AuditWords, Memory>
    requires { IsMatchOf audit_command matches.now }
    ensures { IfOk result (λ words. AreAuditValues (rows_of (found_of matches.now))
        (audit_names words)) }
{
    let units = number_if_given(matches, "units")?;
    let layout = value_of(alloc, matches, "layout")?;
    let stock = value_of(alloc, matches, "stock")?;
    let orders = value_of(alloc, matches, "orders")?;
    let journal = value_of(alloc, matches, "journal")?;
    Ok(AuditWords {
        layout,
        stock,
        orders,
        journal,
        units,
    })
}

fn make_words(matches: &ArgMatches<'_>) -> Result<MakeWords, WordsFault>
    ensures values { IfOk result (λ words. AreMakeValues (rows_of (found_of matches.now))
        (make_numbers words)) }
    ensures fault { IfErr result (IsFaultOf (said_once (rows_of (found_of matches.now)))) }
{
    let effort = effort_of(matches)?;
    Ok(MakeWords {
        number: number_of(matches, "number")?,
        aisles: number_of(matches, "aisles")?,
        orders: number_of(matches, "orders")?,
        desks: number_of(matches, "desks")?,
        wave: number_of(matches, "wave")?,
        capacity: number_of(matches, "capacity")?,
        budget: effort.budget,
        nodes: effort.nodes,
        workers: number_of(matches, "workers")?,
    })
}

/// The words after `plan`.
fn read_plan(alloc: Global, words: &[String]) -> Result<PlanWords, WordsFault>
    ensures said { IfOk result (λ plan. plan_said (texts_of words.now) ≡ Ok (plan_names plan)) }
    ensures stated { IfOk result (λ plan. ArePlanValues
        (matches_of plan_command (texts_of words.now)) (plan_names plan)) }
    ensures fault { IfErr result (IsFaultOf (plan_said (texts_of words.now))) }
    ensures ranges { IfOk result (λ plan. HasRanges (plan_names plan)) }
{
    let command = plan_command(alloc)?;
    let matches = matched(command, words)?;
    let plan = plan_words(alloc, &matches)?;
    Ok(plan)
}

/// The words after `check`.
fn read_check(alloc: Global, words: &[String]) -> Result<CheckWords, WordsFault>
    ensures said { IfOk result (λ check. check_said (texts_of words.now) ≡ Ok (check_names check)) }
    ensures stated { IfOk result (λ check. AreCheckValues
        (matches_of check_command (texts_of words.now)) (check_names check)) }
    ensures fault { IfErr result (IsFaultOf (check_said (texts_of words.now))) }
{
    let command = check_command(alloc)?;
    let matches = matched(command, words)?;
    let check = check_words(alloc, &matches)?;
    Ok(check)
}

/// The words after `audit`.
fn read_audit(alloc: Global, words: &[String]) -> Result<AuditWords, WordsFault>
    ensures said { IfOk result (λ audit. audit_said (texts_of words.now) ≡ Ok (audit_names audit)) }
    ensures stated { IfOk result (λ audit. AreAuditValues
        (matches_of audit_command (texts_of words.now)) (audit_names audit)) }
    ensures fault { IfErr result (IsFaultOf (audit_said (texts_of words.now))) }
    ensures range { IfOk result (λ audit. HasAuditRange (audit_names audit)) }
{
    let command = audit_command(alloc)?;
    let matches = matched(command, words)?;
    let audit = audit_words(alloc, &matches)?;
    Ok(audit)
}

/// What the options of `make` give.
fn read_given(alloc: Global, words: &[String]) -> Result<MakeWords, WordsFault>
    ensures said { IfOk result (λ make. make_given (texts_of words.now) ≡ Ok (make_numbers make)) }
    ensures stated { IfOk result (λ make. AreMakeValues
        (matches_of make_command (texts_of words.now)) (make_numbers make)) }
    ensures fault { IfErr result (IsFaultOf (make_given (texts_of words.now))) }
    ensures ranges { IfOk result (λ make. HasMakeRanges (make_numbers make)) }
{
    let command = make_command(alloc)?;
    let matches = matched(command, words)?;
    let make = make_words(&matches)?;
    Ok(make)
}

/// The words after `make`.
fn read_make(alloc: Global, words: &[String]) -> Result<MakeWords, WordsFault>
    ensures said { IfOk result (λ make. make_said (texts_of words.now) ≡ Ok (make_numbers make)) }
    ensures stated { IfOk result (λ make. AreMakeValues
        (matches_of make_command (texts_of words.now)) (make_numbers make)) }
    ensures fault { IfErr result (IsFaultOf (make_said (texts_of words.now))) }
    ensures makeable { IfOk result (λ make. IsMakeable (make_numbers make)) }
{
    let make = read_given(alloc, words)?;
    let waves = make.orders.div_ceil(make.wave);
    if waves <= MOST_SUBMISSIONS {
        Ok(make)
    } else {
        Err(WordsFault::TooManyWaves(waves))
    }
}

/// Reads the words of a command line, without the program's name: a mode, `plan`, `check`, `audit` or `make`, and its
/// options. NoMode comes exactly where there is no word, UnknownMode exactly where the first word is no mode, BadWords
/// exactly where the words after it aren't accepted for the mode's command, and TooManyWaves exactly where they are a
/// good `make` whose orders are cut into more than 500 waves, with their number. Of a plan and of a made day the
/// capacity is 1 to 8, the budget 0 to 1,000,000,000,000,000,000 and the workers 1 to 16; the nodes, where they are
/// given, are 1 to 1,000,000,000, and words that give a budget too aren't accepted. Of a plan and of an audit the
/// units, where they are given, are 1 to 40,000,000. Of a plan the rules are 0 or 1, the pickers 0 to 100, and the root
/// and the store 0 or 1.
#[tactic(auto, unfolding(crate::specs::Words::job_said))]
pub fn read_words(alloc: Global, words: &Vec<String>) -> Result<Job, WordsFault>
    ensures job { IfOk result (λ job. job_said (texts_of words.now.items) ≡ Ok (job_names job)) }
    ensures stated { IfOk result (λ job. AreStated (texts_of words.now.items) (job_names job)) }
    ensures fault { IfErr result (IsFaultOf (job_said (texts_of words.now.items))) }
    ensures ranges { IfOk result (λ job. AreInRange (job_names job)) }
{
    let [mode, words @ ..] = words.as_slice() else {
        return Err(WordsFault::NoMode);
    };
    match mode.as_str() {
        "plan" => Ok(Job::Plan(read_plan(alloc, words)?)),
        "check" => Ok(Job::Check(read_check(alloc, words)?)),
        "audit" => Ok(Job::Audit(read_audit(alloc, words)?)),
        "make" => Ok(Job::Make(read_make(alloc, words)?)),
        _ => Err(WordsFault::UnknownMode),
    }
}
