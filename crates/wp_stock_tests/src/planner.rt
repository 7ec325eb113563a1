//! The planner that all desks share.
ghost use Rattle.std.specs.Prelude.{All, IsTrue};
ghost use Rattle.wp_model.specs.Warehouse.{IsSlot};
ghost use Rattle.wp_planner.specs.Released.{LiesIn};
ghost use Rattle.wp_planner.specs.Slots.{slot_at};

use std::alloc::Global;
use std::test::Fail;
use std::thread::{Threads, join};
use wp_desk::Planner;
use wp_graph::Layout;
use wp_machine::{Opening, WaveHolds};
use wp_model::{Hold, Holds, MOST_CART_UNITS, Name, Names, StockRow};
use wp_outside::OpenGate;
use wp_planner::{DayPlanner, Planning, PlansWaves, Terms, plan_for};
use wp_tables::{read_orders, read_stock};

const STOCK: &[u8] = b"location,article,on_hand
1-1-L,A,5
2-1-L,A,5
";

const ORDERS: &[u8] = b"order,article,quantity
O1,A,2
";

/// A wave of one order, as a planner is asked for its plan.
struct Case {
    /// How many units a cart holds, or none for any number.
    units: Option<u32>,
    /// How many units are held for the order in the first row, and in the second one.
    held: &'static [u32],
    /// Whether there is a plan.
    planned: bool,
}

const CASES: &[Case] = &[
    Case {
        units: None,
        held: &[2],
        planned: true,
    },
    Case {
        units: None,
        held: &[],
        planned: false,
    },
    Case {
        units: Some(2),
        held: &[2],
        planned: true,
    },
    Case {
        units: Some(1),
        held: &[2],
        planned: false,
    },
    Case {
        units: Some(5),
        held: &[2, 3],
        planned: true,
    },
    Case {
        units: Some(4),
        held: &[2, 3],
        planned: false,
    },
    Case {
        units: Some(40_000_000),
        held: &[4_294_967_295, 2],
        planned: false,
    },
];

/// The opening of one order, with carts of these units.
fn opening_of(alloc: Global, layout: &Layout, units: Option<u32>) -> Result<Opening, Fail> {
    let stock = read_stock(alloc, &STOCK.to_vec(alloc)?, layout)?;
    let orders = read_orders(alloc, &ORDERS.to_vec(alloc)?, &stock)?;
    match units {
        None => Ok(Opening::of(stock, orders)),
        Some(units) if 1 <= units && units <= MOST_CART_UNITS => {
            Ok(Opening::with_cart(stock, orders, units))
        }
        Some(_) => Err("no cart".into()),
    }
}

fn lies(layout: &Layout, row: &StockRow) -> bool
    ensures { IsTrue result → IsSlot layout.now (slot_at row.now.location) }
{
    let aisle = row.location.aisle;
    let slot = row.location.slot;
    1 <= aisle && aisle <= layout.aisles() && 1 <= slot && slot <= layout.slots()
}

fn lie_in(layout: &Layout, rows: &[StockRow]) -> bool
    ensures { IsTrue result → All (λ row. IsSlot layout.now (slot_at row.location)) rows.now }
{
    rows.iter().all(|row| lies(layout, row))
}

fn names_of(alloc: Global, name: Name) -> Result<Names, Fail> {
    let mut names = Vec::new(alloc);
    names.push(name)?;
    Ok(Names::of(names))
}

/// A hold of so many units for the first order.
fn hold_in(row: u32, quantity: u32) -> Hold {
    Hold {
        order: 0,
        row,
        quantity,
    }
}

fn one_hold(alloc: Global, first: u32) -> Result<Holds, Fail> {
    let mut holds = Vec::new(alloc);
    holds.push(hold_in(0, first))?;
    Ok(Holds::of(holds))
}

fn two_holds(alloc: Global, first: u32, second: u32) -> Result<Holds, Fail> {
    let mut holds = Vec::new(alloc);
    holds.push(hold_in(0, first))?;
    holds.push(hold_in(1, second))?;
    Ok(Holds::of(holds))
}

/// Holds for the first order, of so many units in the first row, and in the second one.
fn holds_of(alloc: Global, held: &[u32]) -> Result<Holds, Fail> {
    match held {
        [] => Ok(Holds::of(Vec::new(alloc))),
        [first] => one_hold(alloc, *first),
        [first, second] => two_holds(alloc, *first, *second),
        _ => Err("too many holds".into()),
    }
}

/// A wave of one order, for which this is held.
fn wave_with(alloc: Global, held: &[u32]) -> Result<WaveHolds, Fail> {
    let wave = Name::new(b"W1").ok_or("no name")?;
    let order = Name::new(b"O1").ok_or("no name")?;
    let orders = names_of(alloc, order)?;
    Ok(WaveHolds {
        number: 1,
        wave,
        orders,
        holds: holds_of(alloc, held)?,
    })
}

/// A wave with no order.
fn empty(alloc: Global) -> Result<WaveHolds, Fail> {
    let wave = Name::new(b"W2").ok_or("no name")?;
    Ok(WaveHolds {
        number: 2,
        wave,
        orders: Names::of(Vec::new(alloc)),
        holds: Holds::of(Vec::new(alloc)),
    })
}

/// Whether two threads that share a planner have plans of a wave.
fn have_plans<R: Threads + Sync, C: PlansWaves>(
    rt: &R,
    alloc: Global,
    planner: &DayPlanner<C>,
    wave: &WaveHolds,
) -> Result<(bool, bool), Fail> {
    let (one, other) = join(
        rt,
        || planner.plan(alloc, wave),
        || planner.plan(alloc, wave),
    );
    Ok((one?.is_some(), other?.is_some()))
}

/// Whether two threads have plans of a wave by what makes them.
fn have_plans_by<R: Threads + Sync, C: PlansWaves>(
    rt: &R,
    alloc: Global,
    plans: C,
    wave: &WaveHolds,
) -> Result<(bool, bool), Fail>
    requires { C.takes_any plans }
{
    have_plans(rt, alloc, &DayPlanner::by(plans), wave)
}

/// Whether two threads that share the planner of a day, in a layout and from an opening, have plans of a wave.
fn have_day_plans<R: Threads + Sync>(
    rt: &R,
    alloc: Global,
    layout: &Layout,
    opening: &Opening,
    wave: &WaveHolds,
) -> Result<(bool, bool), Fail> {
    if !lie_in(layout, opening.stock().as_rows()) {
        return Err("no stock".into());
    }
    let terms = Terms::of(1, 100_000_000, 1);
    let plan = |alloc: Global, wave: &WaveHolds|
        requires { LiesIn layout.now opening.now.stock }
    {
        let planning = Planning {
            rt,
            layout,
            opening,
            terms: &terms,
            gate: &OpenGate,
        };
        plan_for(&planning, alloc, wave)
    };
    have_plans_by(rt, alloc, plan, wave)
}

/// Whether the planner has a plan of a case's wave exactly where it is to have one.
fn is_planned<R: Threads + Sync>(rt: &R, alloc: Global, case: &Case) -> Result<bool, Fail> {
    let layout = Layout::new(3, 4, 2, 1, 5, 1).ok_or("no layout")?;
    let opening = opening_of(alloc, &layout, case.units)?;
    let wave = wave_with(alloc, case.held)?;
    let have = have_day_plans(rt, alloc, &layout, &opening, &wave)?;
    Ok(have == (case.planned, case.planned))
}

#[test]
fn a_wave_has_a_plan_exactly_where_it_goes_out(rt: HostRuntime) -> Result<(), Fail> {
    for case in CASES {
        assert!(rt; is_planned(&rt, rt.alloc(), case)?);
    }
    Ok(())
}

#[test]
fn a_wave_without_orders_has_no_plan(rt: HostRuntime) -> Result<(), Fail> {
    let alloc = rt.alloc();
    let layout = Layout::new(3, 4, 2, 1, 5, 1).ok_or("no layout")?;
    let opening = opening_of(alloc, &layout, None)?;
    assert!(rt; have_day_plans(&rt, alloc, &layout, &opening, &empty(alloc)?)? == (false, false));
    Ok(())
}
