//! The batches of a day, dealt to pickers.
ghost use Rattle.std.specs.Prelude.{◌≡◌, ◌<◌, ◌≤◌, ◌++◌, [], ◌∷◌, All, IfOk, List, OnOk, length};
ghost use Rattle.std.specs.List.{flat_map};
ghost use Rattle.wp_model.specs.Opening.{Opening as OpeningData};
ghost use Rattle.wp_model.specs.Warehouse.{Layout as Block};
ghost use Rattle.wp_planner.specs.Crews.{AreListed, DayBatch, GoesSomewhere, IsCrewFor, day_batches, sent_batches};
ghost use Rattle.wp_planner.specs.Crews.{wave_batches};
ghost use Rattle.wp_planner.specs.Sent.{ArePlanned, IsPlanned, plans_of, sent_waves};
ghost use Rattle.wp_planner.specs.Terms.{Terms as TermsData};

use crate::planner::WavePlan;
use crate::sent::plan_sent;
use std::alloc::Global;
use wp_crew::{Crew, assign};
use wp_desk::Planned;
use wp_model::{Memory, Name};

/// The batches of all waves that went out on a day, in the order of their sheets.
#[derive(Drop)]
pub struct DayBatches {
    /// The name of each batch's wave.
    pub waves: Vec<Name>,
    /// The number of each batch on its wave's sheet, from 1.
    pub numbers: Vec<u32>,
    /// The length of each batch's tour.
    pub lengths: Vec<u64>,
}

/// The batches of a day, and the crew to which they are dealt.
#[derive(Drop)]
pub struct DayCrew {
    pub batches: DayBatches,
    pub crew: Crew,
}

impl DayBatches {
    // No batch.
    fn none(alloc: Global) -> DayBatches
        ensures { AreListed [] result }
    {
        DayBatches {
            waves: Vec::new(alloc),
            numbers: Vec::new(alloc),
            lengths: Vec::new(alloc),
        }
    }

    // Adds a batch behind the others.
    fn add(&mut self, wave: Name, number: u32, length: u64) -> Result<(), Memory>
        ensures waves { OnOk result (self.new.waves.items ≡ self.old.waves.items ++ wave ∷ []) }
        ensures numbers { OnOk result (self.new.numbers.items ≡ self.old.numbers.items ++ number
            ∷ []) }
        ensures lengths { OnOk result (self.new.lengths.items ≡ self.old.lengths.items ++ length
            ∷ []) }
    {
        self.waves.push(wave)?;
        self.numbers.push(number)?;
        self.lengths.push(length)?;
        Ok(())
    }
}

// Adds the batches of a wave's plan, numbered from 1.
fn add_batches(batches: &mut DayBatches, name: Name, plan: &WavePlan) -> Result<(), Memory>
    requires places { All (All (λ order. order < length plan.now.wave.orders))
        plan.now.planned.batching }
    requires some { All (GoesSomewhere plan.now.wave) plan.now.planned.batching }
    ensures { (before : List DayBatch) → AreListed before batches.old → OnOk result
        (AreListed (before ++ wave_batches name plan.now.wave 1 plan.now.planned.batching) batches.new) }
{
    let list = &plan.planned.batching;
    for place in 0..list.len() {
        let length = plan.wave.batch_length(*list.at(place));
        batches.add(name, place + 1, length)?;
    }
    Ok(())
}

// Adds the batches of a wave that went out.
fn add_wave(batches: &mut DayBatches, one: &Planned<Option<WavePlan>>) -> Result<(), Memory>
    requires { (layout : Block) × (opening : OpeningData) × (terms : TermsData)
        × IsPlanned layout opening terms one.now }
    ensures { (before : List DayBatch) → AreListed before batches.old
        → OnOk result (AreListed (before ++ sent_batches one.now) batches.new) }
{
    add_batches(batches, one.wave.wave, plan_sent(one))
}

// The batches of all waves that went out.
fn batches_of(alloc: Global, sent: &[Planned<Option<WavePlan>>]) -> Result<DayBatches, Memory>
    requires { (layout : Block) × (opening : OpeningData) × (terms : TermsData)
        × ArePlanned layout opening terms sent.now }
    ensures { IfOk result (AreListed (flat_map sent_batches sent.now)) }
{
    let mut batches = DayBatches::none(alloc);
    for one in sent {
        add_wave(&mut batches, one)?;
    }
    Ok(batches)
}

/// Deals all batches of the waves that went out on a day, up to 10,000 of them, to so many pickers, 0 to 100, so that
/// the longest load is short (`assign` of `wp_crew` says how). None comes exactly where there are no pickers. `Memory`
/// comes where memory runs out.
pub fn crew_for(
    alloc: Global,
    sent: &[Planned<Option<WavePlan>>],
    pickers: u32,
) -> Result<Option<DayCrew>, Memory>
    requires planned { (layout : Block) × (opening : OpeningData) × (terms : TermsData)
        × ArePlanned layout opening terms sent.now }
    requires few { length sent.now ≤ 10000 }
    requires most { pickers ≤ 100 }
    ensures { IfOk result (IsCrewFor pickers
        (day_batches (sent_waves sent.now) (plans_of sent.now))) }
{
    if pickers == 0 {
        return Ok(None);
    }
    let batches = batches_of(alloc, sent)?;
    let crew = assign(alloc, &batches.lengths, pickers)?;
    Ok(Some(DayCrew { batches, crew }))
}
