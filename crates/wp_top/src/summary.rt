//! The summary of a made day.
ghost use Rattle.std.specs.Prelude.{◌≡◌, ◌<◌, ◌≤◌, ◌+◌, ◌-◌, ◌^◌, ◌∷◌, ◌++◌, [], IfOk, string_bytes};
ghost use Rattle.wp_machine.specs.Outcome.{released_of};
ghost use Rattle.wp_model.specs.History.{IsLegal, state_after};
ghost use Rattle.wp_planner.specs.Sent.{plans_of, sent_waves};
ghost use Rattle.wp_top.specs.Summaries.{commands_line, held_units, is_proven, made_line, plans_line, proven_plans};
ghost use Rattle.wp_top.specs.Summaries.{releases, size_words, summary_of, total_bound, total_cost};
ghost use Rattle.wp_words.specs.Reading.{make_numbers};

use crate::make::size_of;
use std::alloc::Global;
use std::fmt::Write;
use wp_desk::{DayRun, Planned};
use wp_machine::Machine;
use wp_make::Size;
use wp_model::Memory;
use wp_planner::WavePlan;
use wp_search::State;
use wp_words::MakeWords;

// How many units a machine's rows hold for waves.
fn held_units(machine: &Machine<'_>) -> u64
    ensures { result ≡ held_units (state_after machine.now).rows }
{
    let mut units = 0;
    for number in 0..machine.rows() {
        units += u64::from(machine.row(number).held);
    }
    units
}

fn is_proven(state: State) -> bool
    ensures { result ≡ is_proven state }
{
    match state {
        State::Proven => true,
        State::Open => false,
    }
}

// A sum, and so much more.
fn plus(sum: u128, more: u64) -> u128
    requires { sum < 2 ^ 128 - 2 ^ 64 }
    ensures value { result ≡ sum + more }
    ensures few { result ≤ sum + 18446744073709551615 }
{
    sum + u128::from(more)
}

// What plans come to together: their costs, their bounds, and how many are proven.
#[derive(Clone, Copy)]
struct Totals {
    cost: u128,
    bound: u128,
    proven: u64,
}

impl Totals {
    // With the plan of one more wave that went out, where it has one.
    fn with(self, one: &Planned<Option<WavePlan>>) -> Totals
        requires cost { self.cost < 2 ^ 128 - 2 ^ 64 }
        requires bound { self.bound < 2 ^ 128 - 2 ^ 64 }
        requires proven { self.proven < 2 ^ 64 - 1 }
        ensures cost { result.cost ≡ self.cost + total_cost (plans_of (one.now ∷ [])) }
        ensures bound { result.bound ≡ self.bound + total_bound (plans_of (one.now ∷ [])) }
        ensures proven { result.proven ≡ self.proven + proven_plans (plans_of (one.now ∷ [])) }
        ensures few_cost { result.cost ≤ self.cost + 18446744073709551615 }
        ensures few_bound { result.bound ≤ self.bound + 18446744073709551615 }
        ensures few_proven { result.proven ≤ self.proven + 1 }
    {
        match &one.plan {
            Some(plan) => Totals {
                cost: plus(self.cost, plan.planned.cost),
                bound: plus(self.bound, plan.planned.bound),
                proven: self.proven + u64::from(is_proven(plan.planned.state)),
            },
            None => self,
        }
    }
}

fn totals_of(planned: &[Planned<Option<WavePlan>>]) -> Totals
    ensures cost { result.cost ≡ total_cost (plans_of planned.now) }
    ensures bound { result.bound ≡ total_bound (plans_of planned.now) }
    ensures proven { result.proven ≡ proven_plans (plans_of planned.now) }
{
    let mut totals = Totals {
        cost: 0,
        bound: 0,
        proven: 0,
    };
    for one in planned {
        totals = totals.with(one);
    }
    totals
}

fn print_size(text: &mut String, size: Size) -> Result<(), Memory>
    ensures { IfOk result (λ _. string_bytes text.new ≡ string_bytes text.old ++ size_words size) }
{
    let Size {
        aisles,
        orders,
        desks,
        ..
    } = size;
    writeln!(text, " aisles {aisles} orders {orders} desks {desks}")?;
    Ok(())
}

fn print_made(text: &mut String, number: u64, size: Size) -> Result<(), Memory>
    ensures { IfOk result (λ _. string_bytes text.new
        ≡ string_bytes text.old ++ made_line number size) }
{
    write!(text, "made number {number}")?;
    print_size(text, size)
}

fn print_commands(text: &mut String, machine: &Machine<'_>, released: usize) -> Result<(), Memory>
    requires { released ≡ releases machine.now.entries }
    ensures { IfOk result (λ _. string_bytes text.new
        ≡ string_bytes text.old ++ commands_line machine.now) }
{
    let commands = machine.count();
    let units = held_units(machine);
    writeln!(
        text,
        "commands {commands} released {released} units {units}"
    )?;
    Ok(())
}

fn print_plans(text: &mut String, planned: &[Planned<Option<WavePlan>>]) -> Result<(), Memory>
    ensures { IfOk result (λ _. string_bytes text.new
        ≡ string_bytes text.old ++ plans_line (plans_of planned.now)) }
{
    let Totals {
        cost,
        bound,
        proven,
    } = totals_of(planned);
    writeln!(text, "cost {cost} bound {bound} proven {proven}")?;
    Ok(())
}

/// The summary of a made day: what was made; how many commands there were, how many waves were released, and how many
/// units are held at the end; and what the plans cost, the sum of their bounds, and how many are proven.
pub fn summary_text(
    alloc: Global,
    words: &MakeWords,
    day: &DayRun<'_, Option<WavePlan>>,
) -> Result<Vec<u8>, Memory>
    requires legal { IsLegal day.now.machine }
    requires waves { sent_waves day.now.plans.items ≡ released_of day.now.machine }
    ensures { IfOk result (λ text. text.items
        ≡ summary_of (make_numbers words.now) day.now.machine (plans_of day.now.plans.items)) }
{
    let planned = day.plans.as_slice();
    let mut text = String::new(alloc);
    print_made(&mut text, words.number, size_of(words))?;
    print_commands(&mut text, &day.machine, planned.len())?;
    print_plans(&mut text, planned)?;
    Ok(text.into_bytes())
}
