//! Orders that no cart holds.
ghost use Rattle.std.specs.Prelude.{IsTrue};
ghost use Rattle.std.specs.List.{All};
ghost use Rattle.wp_model.specs.Plain.{is_plain};

use crate::given::stock_of;
use crate::machine::{ask, orders_of, scripts_of, text_of};
use std::alloc::Global;
use std::fmt::Write;
use std::process::Abort;
use std::test::Fail;
use wp_machine::{Machine, Opening};
use wp_model::{Command, MOST_CART_UNITS};

/// The units of a cart or none, orders, the commands of desk 1, and what these are told: the entries, and how many
/// units are free in each row after them.
#[derive(Clone, Copy)]
struct CartDay {
    units: Option<u32>,
    orders: &'static str,
    desk: &'static str,
    told: &'static str,
}

const STOCK: &str = "location,article,on_hand\n1-1-L,A,5\n1-2-L,B,5\n";

const ONE_ORDER: &str = "order,article,quantity\nO1,A,2\n";

const SUBMIT_AND_RELEASE: &str = "desk,command,arguments\n1,submit,W1,O1\n1,release,W1\n";

/// O1 has two lines of one article, 3 units together, and O2 lines of two, 4 units together.
const ORDERS_OF_LINES: &str = "order,article,quantity\nO1,A,1\nO2,A,1\nO1,A,2\nO2,B,3\n";

const EACH_ALONE: &str = "desk,command,arguments\n1,submit,W1,O1\n1,submit,W2,O2\n";

const CART_DAYS: [CartDay; 9] = [
    CartDay {
        units: Some(1),
        orders: ONE_ORDER,
        desk: SUBMIT_AND_RELEASE,
        told: "0 1 submit W1 O1 -> refused over-cart O1 2
1 1 release W1 -> refused unknown-wave
free 5 5
",
    },
    CartDay {
        units: Some(2),
        orders: ONE_ORDER,
        desk: SUBMIT_AND_RELEASE,
        told: "0 1 submit W1 O1 -> submitted
1 1 release W1 -> released
free 3 5
",
    },
    CartDay {
        units: None,
        orders: "order,article,quantity\nO1,A,100000\n",
        desk: SUBMIT_AND_RELEASE,
        told: "0 1 submit W1 O1 -> submitted
1 1 release W1 -> refused short A 100000 5
free 5 5
",
    },
    // The first order that can't join the wave decides.
    CartDay {
        units: Some(1),
        orders: ONE_ORDER,
        desk: "desk,command,arguments\n1,submit,W1,O9,O1\n1,submit,W1,O1,O9\n1,submit,W1,O1,O1\n",
        told: "0 1 submit W1 O9 O1 -> refused unknown-order O9
1 1 submit W1 O1 O9 -> refused over-cart O1 2
2 1 submit W1 O1 O1 -> refused over-cart O1 2
free 5 5
",
    },
    CartDay {
        units: Some(2),
        orders: ORDERS_OF_LINES,
        desk: "desk,command,arguments\n1,submit,W1,O1,O2\n1,submit,W1,O2,O1\n",
        told: "0 1 submit W1 O1 O2 -> refused over-cart O1 3
1 1 submit W1 O2 O1 -> refused over-cart O2 4
free 5 5
",
    },
    // All lines of an order count.
    CartDay {
        units: Some(2),
        orders: ORDERS_OF_LINES,
        desk: EACH_ALONE,
        told: "0 1 submit W1 O1 -> refused over-cart O1 3
1 1 submit W2 O2 -> refused over-cart O2 4
free 5 5
",
    },
    CartDay {
        units: Some(3),
        orders: ORDERS_OF_LINES,
        desk: EACH_ALONE,
        told: "0 1 submit W1 O1 -> submitted
1 1 submit W2 O2 -> refused over-cart O2 4
free 5 5
",
    },
    CartDay {
        units: Some(4),
        orders: ORDERS_OF_LINES,
        desk: "desk,command,arguments\n1,submit,W1,O1,O2\n1,submit,W2,O2\n",
        told: "0 1 submit W1 O1 O2 -> submitted
1 1 submit W2 O2 -> refused order-taken O2 W1
free 5 5
",
    },
    CartDay {
        units: Some(MOST_CART_UNITS),
        orders: ONE_ORDER,
        desk: SUBMIT_AND_RELEASE,
        told: "0 1 submit W1 O1 -> submitted
1 1 release W1 -> released
free 3 5
",
    },
];

/// The opening for carts that hold so many units, or any number.
fn cart_opening(alloc: Global, orders: &str, units: Option<u32>) -> Result<Opening, Fail> {
    let stock = stock_of(alloc, STOCK)?;
    let orders = orders_of(alloc, orders, &stock)?;
    match units {
        Some(units) if 1 <= units && units <= MOST_CART_UNITS => {
            Ok(Opening::with_cart(stock, orders, units))
        }
        _ => Ok(Opening::of(stock, orders)),
    }
}

fn write_free(text: &mut String, machine: &Machine<'_>) -> Result<(), Fail> {
    write!(text, "free")?;
    for row in 0..machine.rows() {
        let free = machine.row(row).free;
        write!(text, " {free}")?;
    }
    writeln!(text)?;
    Ok(())
}

/// What a new machine tells of the commands of desk 1.
fn told_of(
    rt: &impl Abort,
    alloc: Global,
    opening: &Opening,
    script: &[Command],
) -> Result<String, Fail>
    requires { All (λ command. IsTrue (is_plain command)) script.now }
{
    let mut machine = Machine::open(alloc, opening)?;
    for command in script {
        ask(rt, alloc, &mut machine, command)?;
    }
    let mut text = text_of(alloc, machine.entries(alloc)?.as_slice())?;
    write_free(&mut text, &machine)?;
    Ok(text)
}

fn told(rt: &impl Abort, alloc: Global, day: &CartDay) -> Result<String, Fail> {
    let opening = cart_opening(alloc, day.orders, day.units)?;
    assert!(rt; opening.units() == day.units);
    let scripts = scripts_of(alloc, day.desk)?;
    told_of(rt, alloc, &opening, scripts.script(1))
}

#[test]
fn orders_with_more_units_than_a_cart_are_refused(rt: HostRuntime) -> Result<(), Fail> {
    for day in &CART_DAYS {
        assert_eq!(rt; told(&rt, rt.alloc(), day)?.as_str(), day.told);
    }
    Ok(())
}
