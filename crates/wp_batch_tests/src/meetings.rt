//! Workers price beside each other while a wave is planned.

use crate::gates::WorkersMeet;
use crate::search::APART;
use std::alloc::Global;
use std::thread::Threads;
use wp_outside::Gate;
use wp_samples::{MOST_LOOKS, Meeting, wave_of};
use wp_search::{Planned, State, plan_wave};

/// The plan of the orders with a slot each, priced by two workers who pass this gate.
fn planned<R: Threads + Sync, G: Gate>(rt: &R, alloc: Global, gate: &G) -> Option<Planned> {
    let wave = wave_of(alloc, APART, 1)?;
    plan_wave(rt, alloc, &wave, 2, 2_000_000, 2, gate).ok()
}

/// Whether the plan is a cheapest one, and is proven.
fn is_cheapest(planned: &Planned) -> bool {
    planned.cost == 48 && planned.bound == 48 && planned.state == State::Proven
}

fn have_met<R: Threads + Sync>(rt: &R, alloc: Global) -> Option<bool> {
    let gate = WorkersMeet {
        meeting: Meeting::new(MOST_LOOKS),
    };
    let planned = planned(rt, alloc, &gate)?;
    Some(is_cheapest(&planned) && gate.meeting.have_met())
}

#[test]
fn two_workers_price_a_wave_beside_each_other(rt: HostRuntime) {
    assert_eq!(rt; have_met(&rt, rt.alloc()), Some(true));
}
