//! Days that desks run with a planner that holds plans, or lacks memory for one, which the program's never does.
ghost use Rattle.std.specs.Prelude.{◌≡◌, ◌<◌, ⊤, length, IfOk, IfSome};
ghost use Rattle.wp_model.specs.Tables.{AreReadOrders};

use crate::given::stock_of;
use std::alloc::Global;
use std::sync::Wait;
use std::sync::atomic::{AtomicU32, Ordering};
use std::test::Fail;
use std::thread::Threads;
use wp_desk::{DayRun, Planned, Planner, run_desks};
use wp_machine::{Machine, Opening, WaveHolds};
use wp_model::Memory;
use wp_outside::{Gate, Moment};
use wp_samples::{MOST_LOOKS, Meeting};
use wp_tables::{Orders, Scripts, Stock, read_desks, read_orders};

const STOCK: &str = "location,article,on_hand\n1-1-L,A,5\n1-2-R,B,5\n";

const ORDERS: &str = "order,article,quantity\nO1,A,4\nO2,B,4\n";

/// A wave of each desk goes out.
const TWO_WAVES: &str = "desk,command,arguments
1,submit,W1,O1
1,release,W1
2,submit,W2,O2
2,release,W2
";

/// A wave of each desk goes out, and is cancelled.
const TWO_CANCELLED: &str = "desk,command,arguments
1,submit,W1,O1
1,release,W1
1,cancel,W1
2,submit,W2,O2
2,release,W2
2,cancel,W2
";

/// W1 goes out, and W2 is allotted.
const ONE_ALLOTTED: &str = "desk,command,arguments
1,submit,W1,O1
1,release,W1
2,submit,W2,O2
2,allot,W2
";

const RELEASE_OF_W2: &str = "desk,command,arguments\n1,release,W2\n";

/// Plans each wave by a number of its own.
#[derive(Drop)]
enum NumberPlanner {
    /// Holds nobody.
    Numbering,
    /// Has no memory for the plan of the wave W1.
    Wanting,
    /// Holds the plan of the wave W1 until that of another has begun, and that one until the plan of W1 has.
    Holding(Meeting),
}

/// 1 for the wave W1, and 2 for any other.
fn number_of(wave: &WaveHolds) -> u32 {
    if wave.wave.as_bytes() == b"W1".as_slice() {
        1
    } else {
        2
    }
}

impl Planner for NumberPlanner {
    type Plan = u32;

    ghost plans = { λ _ _ _. ⊤ };

    fn plan(&self, _alloc: Global, wave: &WaveHolds) -> Result<u32, Memory> {
        let number = number_of(wave);
        match self {
            NumberPlanner::Wanting if number == 1 => Err(Memory),
            NumberPlanner::Numbering | NumberPlanner::Wanting => Ok(number),
            NumberPlanner::Holding(meeting) => {
                meeting.come(number);
                Ok(number)
            }
        }
    }
}

/// Counts how often desks 1 and 2 pass before a command, before a plan and after one: desk 1's three counts, and desk
/// 2's.
#[derive(Drop)]
struct Passes {
    counts: [AtomicU32; 6],
}

impl Passes {
    fn new() -> Passes {
        Passes {
            counts: [
                AtomicU32::new(0),
                AtomicU32::new(0),
                AtomicU32::new(0),
                AtomicU32::new(0),
                AtomicU32::new(0),
                AtomicU32::new(0),
            ],
        }
    }

    fn counted(&self, place: usize) -> u32
        requires { place < 6 }
    {
        self.counts[place].load(Ordering::SeqCst)
    }

    fn are(&self, wanted: &[u32; 6]) -> bool {
        for place in 0..6 {
            if self.counted(place) != wanted[place] {
                return false;
            }
        }
        true
    }
}

/// Where a desk's passes of a moment are counted, where they are.
fn place_of(desk: u32, at: Moment) -> Option<usize>
    ensures { IfSome result (λ place. place < 6) }
{
    let first = match desk {
        1 => 0,
        2 => 3,
        _ => return None,
    };
    match at {
        Moment::BeforeCommand => Some(first),
        Moment::BeforePlan => Some(first + 1),
        Moment::AfterPlan => Some(first + 2),
        Moment::BeforePart => None,
    }
}

impl Gate for Passes {
    fn pass(&self, number: u32, at: Moment) {
        if let Some(place) = place_of(number, at) {
            let _before = self.counts[place].fetch_add(1, Ordering::SeqCst);
        }
    }
}

/// The threads of a day, who plans its waves, and what its desks pass.
#[derive(Drop)]
struct Way<'a, R> {
    rt: &'a R,
    alloc: Global,
    planner: &'a NumberPlanner,
    passes: &'a Passes,
}

fn orders_of(alloc: Global, stock: &Stock) -> Result<Orders, Fail>
    ensures { IfOk result (AreReadOrders stock.now.articles) }
{
    Ok(read_orders(alloc, &ORDERS.as_bytes().to_vec(alloc)?, stock)?)
}

fn opening_of(alloc: Global) -> Result<Opening, Fail> {
    let stock = stock_of(alloc, STOCK)?;
    let orders = orders_of(alloc, &stock)?;
    Ok(Opening::of(stock, orders))
}

fn scripts_of(alloc: Global, text: &str) -> Result<Scripts, Fail> {
    Ok(read_desks(alloc, &text.as_bytes().to_vec(alloc)?)?)
}

/// How many waves of a day have the plan of their own number; none where another has not.
fn own_plans(planned: &[Planned<u32>]) -> Option<usize> {
    for one in planned {
        if one.plan != number_of(&one.wave) {
            return None;
        }
    }
    Some(planned.len())
}

/// The plans of a day that goes on from a machine.
fn plans_from<'a, R: Threads + Wait + Sync>(
    way: &Way<'_, R>,
    opening: &'a Opening,
    machine: Machine<'a>,
    scripts: &Scripts,
) -> Result<Option<usize>, Memory>
    requires opened { machine.opening ≡ opening.now }
    requires few { length machine.entries < 2147483648 }
{
    let day = run_desks(
        way.rt,
        way.alloc,
        opening,
        machine,
        scripts,
        way.planner,
        way.passes,
    )?;
    Ok(own_plans(day.plans.as_slice()))
}

/// The plans of a day of its own.
fn plans_of_day<R: Threads + Wait + Sync>(
    way: &Way<'_, R>,
    opening: &Opening,
    scripts: &Scripts,
) -> Result<Option<usize>, Memory> {
    let machine = Machine::open(way.alloc, opening)?;
    plans_from(way, opening, machine, scripts)
}

/// The machine as a day leaves it.
fn machine_after<'a, R: Threads + Wait + Sync>(
    way: &Way<'_, R>,
    opening: &'a Opening,
    scripts: &Scripts,
) -> Result<Machine<'a>, Memory>
    ensures { IfOk result (λ machine. machine.opening ≡ opening.now) }
{
    let machine = Machine::open(way.alloc, opening)?;
    let DayRun {
        machine,
        plans: _,
        refills: _,
    } = run_desks(
        way.rt,
        way.alloc,
        opening,
        machine,
        scripts,
        way.planner,
        way.passes,
    )?;
    Ok(machine)
}

/// The plans of a day that goes on from another.
fn plans_after<R: Threads + Wait + Sync>(
    way: &Way<'_, R>,
    opening: &Opening,
    before: &Scripts,
    scripts: &Scripts,
) -> Result<Option<usize>, Memory> {
    let machine = machine_after(way, opening, before)?;
    if machine.count() > 10_000 {
        return Err(Memory);
    }
    plans_from(way, opening, machine, scripts)
}

/// How the day of a text ends, which goes on from that of another text where there is one.
fn ended<R: Threads + Wait + Sync>(
    way: &Way<'_, R>,
    before: Option<&str>,
    text: &str,
) -> Result<Result<Option<usize>, Memory>, Fail> {
    let opening = opening_of(way.alloc)?;
    let scripts = scripts_of(way.alloc, text)?;
    match before {
        None => Ok(plans_of_day(way, &opening, &scripts)),
        Some(before) => Ok(plans_after(way, &opening, &scripts_of(way.alloc, before)?, &scripts)),
    }
}

/// Whether a day of two waves, planned so, ends with this, and its desks pass so often.
fn ends_so<R: Threads + Wait + Sync>(
    (rt, alloc): (&R, Global),
    planner: &NumberPlanner,
    (before, text): (Option<&str>, &str),
    (end, counts): (Result<Option<usize>, Memory>, &[u32; 6]),
) -> Result<bool, Fail> {
    let passes = Passes::new();
    let way = Way {
        rt,
        alloc,
        planner,
        passes: &passes,
    };
    Ok(ended(&way, before, text)? == end && passes.are(counts))
}

#[test]
fn a_wave_is_planned_outside_of_the_turn(rt: HostRuntime) -> Result<(), Fail> {
    let planner = NumberPlanner::Holding(Meeting::new(MOST_LOOKS));
    let wanted = (Ok(Some(2)), &[2, 1, 1, 2, 1, 1]);
    assert!(rt; ends_so((&rt, rt.alloc()), &planner, (None, TWO_WAVES), wanted)?);
    assert!(rt; have_met(&planner));
    Ok(())
}

fn have_met(planner: &NumberPlanner) -> bool {
    match planner {
        NumberPlanner::Holding(meeting) => meeting.have_met(),
        NumberPlanner::Numbering | NumberPlanner::Wanting => false,
    }
}

/// Desk 1 stops at the plan of its wave, and desk 2 goes on to its end.
#[test]
fn want_of_memory_in_one_desk_ends_the_day(rt: HostRuntime) -> Result<(), Fail> {
    let wanted = (Err(Memory), &[2, 1, 0, 3, 1, 1]);
    assert!(rt;
        ends_so(
            (&rt, rt.alloc()),
            &NumberPlanner::Wanting,
            (None, TWO_CANCELLED),
            wanted
        )?
    );
    Ok(())
}

/// W1 went out before. W2 was allotted before, and goes out now.
#[test]
fn desks_go_on_from_what_was_answered_before(rt: HostRuntime) -> Result<(), Fail> {
    let wanted = (Ok(Some(1)), &[3, 2, 2, 2, 0, 0]);
    assert!(rt;
        ends_so(
            (&rt, rt.alloc()),
            &NumberPlanner::Numbering,
            (Some(ONE_ALLOTTED), RELEASE_OF_W2),
            wanted
        )?
    );
    Ok(())
}
