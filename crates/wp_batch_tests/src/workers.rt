//! Workers pass the gate before each first item, and price beside each other.

use crate::gates::{Counting, Counts, WorkersMeet};
use crate::many::MANY;
use crate::price::{FREE, Given, ONE_BY_ONE, Question, TOGETHER, asked, duals_of};
use crate::slow::SIX;
use std::alloc::Global;
use std::thread::Threads;
use wp_outside::Gate;
use wp_samples::{MOST_LOOKS, Meeting, pairs_for, wave_of};

/// What is priced, through which order, and by how many workers.
type Work = (Given, Option<u32>, u32);

/// What is priced, and how often each of the workers passes the gate.
const PASSES: &[(Work, Counts)] = &[
    ((FREE, None, 1), [3, 0, 0, 0]),
    ((FREE, None, 2), [1, 2, 0, 0]),
    ((FREE, None, 16), [1, 2, 0, 0]),
    ((FREE, Some(1), 3), [2, 0, 0, 0]),
    ((TOGETHER, None, 3), [1, 1, 0, 0]),
    ((TOGETHER, Some(0), 3), [0, 0, 0, 0]),
    ((ONE_BY_ONE, None, 2), [1, 2, 0, 0]),
    ((ONE_BY_ONE, Some(2), 16), [0, 0, 0, 0]),
    ((SIX, None, 1), [6, 0, 0, 0]),
    ((SIX, None, 16), [3, 3, 0, 0]),
    ((SIX, Some(5), 2), [5, 0, 0, 0]),
    ((MANY, None, 2), [12, 12, 0, 0]),
    ((MANY, None, 3), [8, 8, 8, 0]),
    ((MANY, None, 16), [1, 1, 2, 20]),
    ((MANY, Some(7), 2), [11, 12, 0, 0]),
];

/// Whether something is found by so many workers who pass this gate.
fn is_priced<R: Threads + Sync, G: Gate>(
    rt: &R,
    alloc: Global,
    work: Work,
    gate: &G,
) -> Option<bool> {
    let (given, through, workers) = work;
    let wave = wave_of(alloc, given.orders, 1)?;
    let pairs = pairs_for(&wave, given.capacity, given.pairs)?;
    let duals = duals_of(alloc, given.duals)?;
    let question = Question {
        wave: &wave,
        pairs: &pairs,
        duals: &duals,
        through,
        workers,
    };
    Some(asked(rt, alloc, &question, gate)?.is_some())
}

fn wrong_count<R: Threads + Sync>(rt: &R, alloc: Global) -> Option<(usize, Counts)> {
    for (place, (work, counts)) in PASSES.iter().enumerate() {
        let gate = Counting::new();
        let is_priced = is_priced(rt, alloc, *work, &gate);
        if is_priced != Some(true) || gate.counts() != *counts {
            return Some((place, gate.counts()));
        }
    }
    None
}

#[test]
fn each_first_item_is_priced_once_and_the_gate_is_passed_before(rt: HostRuntime) {
    assert_eq!(rt; wrong_count(&rt, rt.alloc()), None);
}

/// Whether two workers meet who look for each other so often.
fn have_met<R: Threads + Sync>(rt: &R, alloc: Global, work: Work, most_looks: u32) -> Option<bool> {
    let gate = WorkersMeet {
        meeting: Meeting::new(most_looks),
    };
    let is_priced = is_priced(rt, alloc, work, &gate)?;
    Some(is_priced && gate.meeting.have_met())
}

/// What is priced by several workers who meet.
const MEETINGS: &[Work] = &[
    (FREE, None, 2),
    (TOGETHER, None, 16),
    (SIX, None, 2),
    (MANY, None, 16),
    (MANY, Some(7), 2),
];

fn wrong_meeting<R: Threads + Sync>(rt: &R, alloc: Global) -> Option<usize> {
    MEETINGS.iter().position(|work| have_met(rt, alloc, *work, MOST_LOOKS) != Some(true))
}

#[test]
fn workers_price_beside_each_other(rt: HostRuntime) {
    assert_eq!(rt; wrong_meeting(&rt, rt.alloc()), None);
}

#[test]
fn one_worker_meets_nobody(rt: HostRuntime) {
    let met = have_met(&rt, rt.alloc(), (FREE, None, 1), 1_000);
    assert_eq!(rt; met, Some(false));
}
