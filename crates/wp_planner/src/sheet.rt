ghost use Rattle.std.specs.Prelude.{◌≡◌, ◌<◌, ◌++◌, All, IfOk, length};
ghost use Rattle.wp_model.specs.Warehouse.{Layout as Block};
ghost use Rattle.wp_lengths.specs.Lengths.{IsLengthOf};
ghost use Rattle.wp_cert.specs.TextData.{HaveDualsWithin};
ghost use Rattle.wp_planner.specs.Plans.{IsPlanOf};
ghost use Rattle.wp_planner.specs.Released.{IsReleased};
ghost use Rattle.wp_outside.specs.Sections.{GrowsBy};
ghost use Rattle.wp_planner.specs.Sheets.{AreParts, FollowsPicks, IsBatchPart, IsRulesLine, IsSheet, IsShortestTour};
ghost use Rattle.wp_planner.specs.Sheets.{certificate_line};
ghost use Rattle.wp_planner.specs.Roots.{is_narrow as is_narrow_state, root_text};
ghost use Rattle.wp_planner.specs.Sheets.{is_open as is_open_state, plan_line};

use crate::planner::WavePlan;
use crate::terms::Terms;
use crate::tours::tour_of;
use std::alloc::Global;
use wp_cert::print_certificate;
use wp_lengths::Wave;
use wp_lp::{Root, RootState};
use wp_machine::{Opening, WaveHolds};
use wp_model::Memory;
use wp_pairs::Batch;
use wp_rules::{Rule, rule_length};
use wp_search::{Planned, State};
use wp_sheets::{
    BatchSheet, Heading, RootLine, append_batch, append_heading, append_root, append_rules,
};

/// A wave that went out, as its sheet tells of it: the opening in whose stock it holds units, the terms of its plan,
/// the plan, and whether a later entry cancels the wave.
#[derive(Clone, Copy)]
pub struct SentWave<'a> {
    pub opening: &'a Opening,
    pub released: &'a WaveHolds,
    pub terms: &'a Terms,
    pub plan: &'a WavePlan,
    pub cancelled_later: bool,
}

// What a batch's part on the sheet says of its tour.
fn sheet_of(alloc: Global, wave: &Wave, batch: Batch) -> Result<BatchSheet, Memory>
    requires { All (λ order. order < length wave.now.orders) batch }
    ensures batch { IfOk result (λ sheet. sheet.batch ≡ batch) }
    ensures tour { IfOk result (λ sheet. IsShortestTour wave.now batch sheet.walk.items
        sheet.length) }
{
    Ok(BatchSheet {
        batch,
        length: wave.batch_length(batch),
        walk: tour_of(alloc, wave, batch)?,
    })
}

// Adds the line of what three usual rules would walk past a batch's picks, beside the length of its tour.
fn print_walks(text: &mut Vec<u8>, wave: &Wave, batch: Batch, shortest: u64) -> Result<(), Memory>
    requires places { All (λ order. order < length wave.now.orders) batch }
    requires length { IsLengthOf wave.now batch shortest }
    ensures { IfOk result (λ _. GrowsBy (IsRulesLine wave.now batch shortest) text.old.items
        text.new.items) }
{
    let layout = wave.layout();
    let picks = wave.union_of(batch);
    let shape = rule_length(&layout, &picks, Rule::SShape);
    let back = rule_length(&layout, &picks, Rule::Return);
    let gap = rule_length(&layout, &picks, Rule::LargestGap);
    append_rules(text, shape, back, gap, shortest)
}

// Adds what follows the picks of a batch, where the sheets tell of rules.
fn print_after(
    text: &mut Vec<u8>,
    sent: &SentWave<'_>,
    batch: Batch,
    shortest: u64,
) -> Result<(), Memory>
    requires places { All (λ order. order < length sent.now.plan.now.wave.orders) batch }
    requires length { IsLengthOf sent.now.plan.now.wave batch shortest }
    ensures { IfOk result (λ _. GrowsBy (FollowsPicks sent.now.terms.now.rules
        sent.now.plan.now.wave batch shortest) text.old.items text.new.items) }
{
    if sent.terms.rules() {
        print_walks(text, &sent.plan.wave, batch, shortest)?;
    }
    Ok(())
}

// Adds the part of a batch with a number.
fn print_part(
    alloc: Global,
    text: &mut Vec<u8>,
    sent: &SentWave<'_>,
    number: u32,
    batch: Batch,
) -> Result<(), Memory>
    requires orders { length sent.now.plan.now.wave.orders ≡ length sent.now.released.now.orders }
    requires places { All (λ order. order < length sent.now.released.now.orders) batch }
    requires rows { All (λ hold. hold.row < length sent.now.opening.now.stock.rows)
        sent.now.released.now.holds }
    ensures { IfOk result (λ _. GrowsBy
        (IsBatchPart sent.now.opening.now.stock sent.now.released.now sent.now.plan.now.wave sent.now.terms.now.rules
        number
        batch) text.old.items text.new.items) }
{
    let sheet = sheet_of(alloc, &sent.plan.wave, batch)?;
    append_batch(text, number, sent.released, sent.opening.stock(), &sheet)?;
    print_after(text, sent, batch, sheet.length)
}

// Adds the parts of all batches of a plan, numbered from 1, each with its tour, of which none is kept.
fn print_parts(alloc: Global, text: &mut Vec<u8>, sent: &SentWave<'_>) -> Result<(), Memory>
    requires orders { length sent.now.plan.now.wave.orders ≡ length sent.now.released.now.orders }
    requires places { All (All (λ order. order < length sent.now.released.now.orders))
        sent.now.plan.now.planned.batching }
    requires rows { All (λ hold. hold.row < length sent.now.opening.now.stock.rows)
        sent.now.released.now.holds }
    ensures { IfOk result (λ _. GrowsBy
        (AreParts sent.now.opening.now.stock sent.now.released.now sent.now.plan.now.wave sent.now.terms.now.rules 1
        sent.now.plan.now.planned.batching)
        text.old.items text.new.items) }
{
    let batches = &sent.plan.planned.batching;
    for place in 0..batches.len() {
        let batch = *batches.at(place);
        print_part(alloc, text, sent, place + 1, batch)?;
    }
    Ok(())
}

// Whether a plan isn't known to be cheapest.
fn is_open(planned: &Planned) -> bool
    ensures { result ≡ is_open_state planned.now.state }
{
    match planned.state {
        State::Proven => false,
        State::Open => true,
    }
}

// Adds the first line.
fn print_plan(text: &mut Vec<u8>, sent: &SentWave<'_>) -> Result<(), Memory>
    ensures { IfOk result (λ _. text.new.items ≡ text.old.items
        ++ plan_line sent.now.opening.now.units sent.now.released.now sent.now.terms.now.capacity
        sent.now.plan.now.planned sent.now.cancelled_later) }
{
    let planned = &sent.plan.planned;
    let heading = Heading {
        wave: sent.released,
        capacity: sent.terms.capacity().most,
        units: sent.opening.units(),
        cost: planned.cost,
        bound: planned.bound,
        state_open: is_open(planned),
        cancelled_later: sent.cancelled_later,
    };
    append_heading(text, &heading)
}

// Adds the line of the certificate.
fn print_shown(alloc: Global, text: &mut Vec<u8>, sent: &SentWave<'_>) -> Result<(), Memory>
    requires { HaveDualsWithin sent.now.plan.now.planned.tree }
    ensures { IfOk result (λ _. text.new.items
        ≡ text.old.items ++ certificate_line sent.now.plan.now.wave sent.now.terms.now.capacity
        sent.now.plan.now.planned) }
{
    let plan = sent.plan;
    let capacity = sent.terms.capacity().most;
    let certificate = print_certificate(alloc, &plan.wave, capacity, &plan.planned.tree)?;
    text.extend_from_slice(b"certificate ")?;
    text.extend_from_slice(&certificate)?;
    text.extend_from_slice(b"\n")?;
    Ok(())
}

// Whether the sides of a bracket are near each other.
fn is_narrow(root: &Root) -> bool
    ensures { result ≡ is_narrow_state root.now.state }
{
    match root.state {
        RootState::Narrow => true,
        _ => false,
    }
}

// Adds the line of the bracket of the linear bound, if there is one.
fn print_bracket(text: &mut Vec<u8>, root: &Option<Root>) -> Result<(), Memory>
    ensures { IfOk result (λ _. text.new.items ≡ text.old.items ++ root_text root.now) }
{
    let Some(root) = root else {
        return Ok(());
    };
    let told = RootLine {
        low: root.low,
        high: root.high,
        denominator: root.denominator,
        narrow: is_narrow(root),
    };
    append_root(text, &told)
}

/// Adds the sheet of a wave that went out and its plan to a text: a line of the wave, its cost and its bound; for each
/// batch, numbered from 1, the length of its tour, its orders, the tour point by point and its picks by row, and, where
/// the terms say so, what three usual rules would walk past them; the certificate; the bracket of the linear bound,
/// where the plan has one; and a last line. The heading says `cancelled later` where a later entry cancels the wave.
/// Tours are made one batch at a time. An `Err` comes from a want of memory alone, and the text may then have some of
/// the sheet.
pub fn print_sheet(alloc: Global, text: &mut Vec<u8>, sent: &SentWave<'_>) -> Result<(), Memory>
    requires released { IsReleased sent.now.opening.now sent.now.released.now }
    requires plan { (layout : Block) × IsPlanOf layout sent.now.opening.now sent.now.released.now
        sent.now.terms.now sent.now.plan.now }
    ensures { IfOk result (λ _. GrowsBy
        (IsSheet sent.now.opening.now sent.now.released.now sent.now.terms.now sent.now.plan.now
        sent.now.cancelled_later) text.old.items text.new.items) }
{
    print_plan(text, sent)?;
    print_parts(alloc, text, sent)?;
    print_shown(alloc, text, sent)?;
    print_bracket(text, &sent.plan.root)?;
    text.extend_from_slice(b"end wave\n")?;
    Ok(())
}
