//! Callers that share a turn beside each other, and passes that meet.
ghost use Rattle.std.specs.Prelude.{◌≡◌, ◌≤◌, ◌<◌, ◌+◌, length, All, IfOk, IfSome, IfNone};
ghost use Rattle.std.specs.Thread.{IsSync};
ghost use Rattle.wp_turn.specs.Promises.{HasLeft, IsOf, own_calls};
ghost use Rattle.wp_turn.specs.Rule.{most_calls};

mod counter;
mod held;

use counter::{Addition, Counter};
use held::Held;
use std::alloc::Global;
use std::sync::{Arc, Wait};
use std::test::Fail;
use std::thread::{Threads, join};
use wp_model::Memory;
use wp_turn::{NotAll, Pass, Passes, Turn};

/// One caller adds the numbers from 0 up to another.
fn add<R: Wait>(
    rt: &R,
    alloc: Global,
    turn: &Turn<Counter>,
    mut pass: Pass<Counter>,
    times: u32,
) -> Result<Pass<Counter>, Memory>
    requires own { IsOf turn.now pass }
    requires fits { times ≤ turn.now.start.0 }
    requires few { HasLeft times pass }
    ensures { IfOk result (λ after. IsOf turn.now after) }
{
    for number in 0..times {
        let addition = Addition::of(alloc, number)?;
        let (next, _receipt) = turn.call(rt, pass, addition);
        pass = next;
    }
    Ok(pass)
}

// The first pass, where there is one.
fn first_of(turn: &Turn<Counter>, passes: &mut Passes<Counter>, times: u32) -> Option<Pass<Counter>>
    requires own { All (IsOf turn.now) passes.old.list }
    requires few { All (HasLeft times) passes.old.list }
    ensures first { IfSome result (λ pass. IsOf turn.now pass × HasLeft times pass) }
    ensures own { All (IsOf turn.now) passes.new.list }
    ensures few { All (HasLeft times) passes.new.list }
    ensures len { IfSome result (λ _. length passes.old.list ≡ length passes.new.list + 1) }
    ensures same { IfNone result (passes.new ≡ passes.old) }
    ensures room { passes.new.room ≡ passes.old.room }
{
    passes.next()
}

/// All callers add beside each other, each in a thread of its own.
fn add_all<R: Threads + Wait + Sync>(
    rt: &R,
    alloc: Global,
    turn: &Turn<Counter>,
    mut passes: Passes<Counter>,
    times: u32,
) -> Result<Passes<Counter>, Memory>
    requires own { All (IsOf turn.now) passes.list }
    requires fits { times ≤ turn.now.start.0 }
    requires few { All (HasLeft times) passes.list }
    ensures own { IfOk result (λ after. All (IsOf turn.now) after.list) }
    ensures len { IfOk result (λ after. length after.list ≡ length passes.list) }
    ensures room { IfOk result (λ after. after.room ≡ passes.room) }
{
    let Some(pass) = first_of(turn, &mut passes, times) else {
        return Ok(passes);
    };
    let left = passes.len();
    let room = passes.room();
    let (one, others) = join(
        rt,
        move || -> Result<Pass<Counter>, Memory>
            requires { IsOf turn.now pass × (times ≤ turn.now.start.0) × HasLeft times pass }
            ensures { IfOk result (λ after. IsOf turn.entry.now after) }
        { add(rt, alloc, turn, pass, times) },
        move || -> Result<Passes<Counter>, Memory>
            requires { IsSync R.row × All (IsOf turn.now) passes.list × (times ≤ turn.now.start.0)
                × All (HasLeft times) passes.list }
            ensures { IfOk result (λ after. All (IsOf turn.entry.now) after.list
                × (length after.list ≡ length passes.list) × (after.room ≡ passes.room)) }
        { add_all(rt, alloc, turn, passes, times) },
    );
    both(turn, one, others, left, room)
}

// The pass behind the others, where both are there.
fn both(
    turn: &Turn<Counter>,
    one: Result<Pass<Counter>, Memory>,
    others: Result<Passes<Counter>, Memory>,
    left: u32,
    room: u32,
) -> Result<Passes<Counter>, Memory>
    requires one { IfOk one (λ pass. IsOf turn.now pass) }
    requires others { IfOk others (λ passes. All (IsOf turn.now) passes.list
        × (length passes.list ≡ left) × (passes.room ≡ room)) }
    requires room { left < room }
    ensures own { IfOk result (λ after. All (IsOf turn.now) after.list) }
    ensures len { IfOk result (λ after. length after.list ≡ left + 1) }
    ensures room { IfOk result (λ after. after.room ≡ room) }
{
    let pass = one?;
    let mut passes = others?;
    passes.put(pass);
    Ok(passes)
}

/// Whether the closed counter has each caller's numbers, each once and in order.
fn all_in_order(counter: &Counter, callers: u32, times: u32) -> bool
    requires { callers ≤ 64 }
{
    (0..callers).all(|before| counter.has_in_order(before + 1, times))
}

/// How many callers add how many numbers each.
const RUNS: [(u32, u32); 4] = [(1, 3), (2, 1000), (8, 500), (64, 10)];

/// Whether a run gives each caller's list.
fn run_is_right<R: Threads + Wait + Sync>(
    rt: &R,
    alloc: Global,
    callers: u32,
    times: u32,
) -> Result<bool, Memory>
    requires callers { (1 ≤ callers) × (callers ≤ 64) }
    requires few { times ≤ 1000 }
{
    let (turn, passes) = Turn::open(alloc, Counter::new(1000), callers)?;
    let passes = add_all(rt, alloc, &turn, passes, times)?;
    match turn.close(passes) {
        Ok(counter) => Ok(all_in_order(&counter, callers, times)),
        Err(_) => Ok(false),
    }
}

#[test]
fn each_caller_finds_its_calls_once_and_in_order(rt: HostRuntime) -> Result<(), Fail> {
    for (callers, times) in RUNS {
        assert!(rt;
            run_is_right(&rt, rt.alloc(), callers, times)?,
            "{callers} callers"
        );
    }
    Ok(())
}

/// A call of one pass, which gets the number and the answer 0 and has then seen one entry.
fn first_call<R: Wait>(
    rt: &R,
    turn: &Turn<Counter>,
    pass: Pass<Counter>,
    addition: Addition,
) -> Option<Pass<Counter>>
    requires own { IsOf turn.now pass }
    requires fits { addition.number ≤ turn.now.start.0 }
    requires few { length (own_calls pass) < most_calls }
    ensures { IfSome result (λ after. IsOf turn.now after) }
{
    let (pass, receipt) = turn.call(rt, pass, addition);
    let is_first = receipt.number == 0 && receipt.out == 0;
    if is_first && pass.seen() == 1 && pass.made() == 1 && pass.stands_for() == 1 {
        Some(pass)
    } else {
        None
    }
}

/// Whether the two passes, once they met, close the turn with the one entry.
fn both_close(turn: Turn<Counter>, mut passes: Passes<Counter>, other: Pass<Counter>) -> bool
    requires own { All (IsOf turn) passes.list }
    requires other { IsOf turn other }
    requires room { length passes.list ≤ passes.room }
{
    let Some(one) = passes.next() else {
        return false;
    };
    let whole = turn.meet(one, other);
    if whole.stands_for() != 2 || whole.caller() != 1 || whole.made() != 1 {
        return false;
    }
    passes.put(whole);
    match turn.close(passes) {
        Ok(counter) => counter.has_in_order(1, 1) && counter.has_in_order(2, 0),
        Err(_) => false,
    }
}

/// The pass, where a look shows it the one entry and leaves its own calls at none.
fn first_look(turn: &Turn<Counter>, pass: Pass<Counter>) -> Option<Pass<Counter>>
    requires own { IsOf turn.now pass }
    ensures { IfSome result (λ after. IsOf turn.now after) }
{
    let pass = turn.look(pass);
    if pass.seen() == 1 && pass.made() == 0 && pass.caller() == 2 {
        Some(pass)
    } else {
        None
    }
}

/// Whether closing with one pass of two is refused, and with both it is not.
fn closes_with_both<R: Wait>(rt: &R, alloc: Global) -> Result<bool, Memory> {
    let addition = Addition::of(alloc, 0)?;
    let (turn, mut passes) = Turn::open(alloc, Counter::new(9), 2)?;
    let (Some(one), Some(two)) = (passes.next(), passes.next()) else {
        return Ok(false);
    };
    let Some(one) = first_call(rt, &turn, one, addition) else {
        return Ok(false);
    };
    let Some(two) = first_look(&turn, two) else {
        return Ok(false);
    };
    passes.put(one);
    match turn.close(passes) {
        Ok(_) => Ok(false),
        Err(refused) => {
            let NotAll {
                turn,
                passes,
                given,
                made,
            } = refused;
            Ok(given == 1 && made == 2 && both_close(turn, passes, two))
        }
    }
}

#[test]
fn a_turn_is_closed_with_all_passes(rt: HostRuntime) -> Result<(), Fail> {
    assert!(rt; closes_with_both(&rt, rt.alloc())?);
    Ok(())
}

/// The three passes, as they are to meet.
type Three = (Pass<Counter>, Pass<Counter>, Pass<Counter>);

/// All orders of three callers.
const ORDERS: [[u32; 3]; 6] = [
    [1, 2, 3],
    [1, 3, 2],
    [2, 1, 3],
    [2, 3, 1],
    [3, 1, 2],
    [3, 2, 1],
];

/// The passes with the caller numbers 1, 2 and 3 in an order.
fn ordered(
    turn: &Turn<Counter>,
    one: Pass<Counter>,
    two: Pass<Counter>,
    three: Pass<Counter>,
    order: &[u32; 3],
) -> Three
    requires own { IsOf turn.now one × IsOf turn.now two × IsOf turn.now three }
    ensures { IsOf turn.now result.0 × IsOf turn.now result.1 × IsOf turn.now result.2 }
{
    match order {
        [1, 2, 3] => (one, two, three),
        [1, 3, 2] => (one, three, two),
        [2, 1, 3] => (two, one, three),
        [2, 3, 1] => (two, three, one),
        [3, 1, 2] => (three, one, two),
        _ => (three, two, one),
    }
}

/// Whether the first pass, once it met the others, has the caller number of the first and has seen the calls of all,
/// and closes the turn.
fn meet_and_close(
    turn: Turn<Counter>,
    mut passes: Passes<Counter>,
    three: Three,
    first: u32,
) -> bool
    requires own { IsOf turn three.0 × IsOf turn three.1 × IsOf turn three.2 }
    requires others { All (IsOf turn) passes.list }
    requires room { length passes.list < passes.room }
{
    let (one, two, three) = three;
    let whole = turn.meet(turn.meet(one, two), three);
    let is_whole = whole.stands_for() == 3 && whole.seen() == 6;
    if !is_whole || whole.made() != 2 || whole.caller() != first {
        return false;
    }
    passes.put(whole);
    match turn.close(passes) {
        Ok(counter) => all_in_order(&counter, 3, 2),
        Err(_) => false,
    }
}

// The first pass, where there is one.
fn one_of(turn: &Turn<Counter>, passes: &mut Passes<Counter>) -> Option<Pass<Counter>>
    requires own { All (IsOf turn.now) passes.old.list }
    ensures first { IfSome result (λ pass. IsOf turn.now pass) }
    ensures own { All (IsOf turn.now) passes.new.list }
    ensures len { IfSome result (λ _. length passes.old.list ≡ length passes.new.list + 1) }
    ensures room { passes.new.room ≡ passes.old.room }
{
    passes.next()
}

/// Three passes that made two calls each, put in order.
fn three_of(turn: &Turn<Counter>, passes: &mut Passes<Counter>, order: &[u32; 3]) -> Option<Three>
    requires own { All (IsOf turn.now) passes.old.list }
    requires fits { length passes.old.list ≤ passes.old.room }
    ensures three { IfSome result (λ three. IsOf turn.now three.0 × IsOf turn.now three.1
        × IsOf turn.now three.2) }
    ensures own { All (IsOf turn.now) passes.new.list }
    ensures room { IfSome result (λ _. length passes.new.list < passes.new.room) }
{
    let three = one_of(turn, passes)?;
    let two = one_of(turn, passes)?;
    let one = one_of(turn, passes)?;
    Some(ordered(turn, one, two, three, order))
}

/// Whether three passes that meet in an order close the turn.
fn meets_in_order<R: Threads + Wait + Sync>(
    rt: &R,
    alloc: Global,
    order: &[u32; 3],
) -> Result<bool, Memory> {
    let (turn, passes) = Turn::open(alloc, Counter::new(1000), 3)?;
    let mut passes = add_all(rt, alloc, &turn, passes, 2)?;
    match three_of(&turn, &mut passes, order) {
        Some(three) => Ok(meet_and_close(turn, passes, three, order[0])),
        None => Ok(false),
    }
}

#[test]
fn passes_meet_in_every_order(rt: HostRuntime) -> Result<(), Fail> {
    for order in &ORDERS {
        assert!(rt; meets_in_order(&rt, rt.alloc(), order)?, "{order:?}");
    }
    Ok(())
}

/// Whether the value is dropped where the opening was refused, and where the turn is.
fn value_is_dropped(alloc: Global) -> Result<bool, Memory> {
    let kept = Arc::new(alloc, 0_u8)?;
    let Ok(lent) = Arc::try_clone(&kept) else {
        return Ok(false);
    };
    let opened = Turn::open(alloc, Held { lent, count: 0 }, 2);
    let is_open = opened.is_ok();
    let while_open = Arc::strong_count(&kept);
    drop(opened);
    Ok(Arc::strong_count(&kept) == 1 && while_open == if is_open { 2 } else { 1 })
}

#[test]
fn a_value_is_dropped_once(rt: HostRuntime) -> Result<(), Fail> {
    assert!(rt; value_is_dropped(rt.alloc())?);
    Ok(())
}
