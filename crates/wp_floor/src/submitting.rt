//! A wave that a desk wants to submit, and what keeps it from being submitted.
ghost use Rattle.std.specs.Prelude.{◌≡◌, ◌+◌, ◌<◌, ◌^◌, [], List, None, Some, length, map, IfOk};
ghost use Rattle.wp_model.specs.Opening.{line_units};
ghost use Rattle.wp_model.specs.State.{Wave};
ghost use Rattle.wp_model.specs.Step.{cart_fault, first_order_fault, order_fault};
ghost use Rattle.wp_model.specs.TableLines.{article_in};
ghost use Rattle.wp_model.specs.Tables.{IsReadOpening};
ghost use Rattle.wp_model.specs.declared.command.Command.TheVariants as command;
ghost use Rattle.wp_tables.specs.Orders.{name_of};
ghost use Rattle.wp_floor.specs.Floor.{AreNeedsOf, AreNumbersOf, AreTakers, HasStepped, IsFloor, order_number};
ghost use Rattle.wp_floor.specs.Floor.{wave_count};
ghost use Rattle.wp_floor.specs.NewWaves.{IsPrepared, size_fault, submit_of, wave_of_new};

use crate::floor::{Floor, put_takers};
use crate::holding::Rooms;
use crate::opening::Opening;
use crate::wanting::wants_of_orders;
use crate::waves::{CalledOrders, KeptWave, Needs, NumberedWave, Stage};
use std::alloc::Global;
use wp_model::{Cell, Line, MOST_WAVE_ORDERS, Memory, Name, Names, Reply};

/// A wave that a desk wants to submit: its name, the numbers of its orders, none for one that the opening hasn't, what
/// it needs to go out, and room for it.
#[derive(Drop)]
pub struct NewWave {
    pub(crate) name: Name,
    pub(crate) numbers: Vec<Option<u32>>,
    pub(crate) needs: Needs,
    pub(crate) cell: Cell<NumberedWave>,
}

/// Why orders can't make a wave whatever was submitted before: there are none, or too many.
pub fn size_fault(orders: &Names) -> Option<Reply>
    ensures { result ≡ size_fault orders.now }
{
    if orders.is_empty() {
        return Some(Reply::NoOrders);
    }
    if orders.len() > MOST_WAVE_ORDERS {
        return Some(Reply::WaveFull(orders.len()));
    }
    None
}

// What a wave of these orders, which have these numbers, needs to go out.
fn needs_of(
    alloc: Global,
    opening: &Opening,
    orders: &Names,
    numbers: &[Option<u32>],
) -> Result<Needs, Memory>
    requires read { IsReadOpening opening.now }
    requires size { size_fault orders.now ≡ None }
    requires numbered { AreNumbersOf opening.now orders.now numbers.now }
    ensures { IfOk result (AreNeedsOf opening.now orders.now) }
{
    let wants = wants_of_orders(alloc, opening, numbers)?;
    let rooms = Rooms::for_wants(alloc, opening.stock(), wants.as_slice())?;
    Ok(Needs {
        orders: orders.copy(alloc)?,
        wants,
        rooms,
    })
}

// The numbers of orders in the opening, none for one that isn't there.
fn numbers_of(alloc: Global, opening: &Opening, orders: &[Name]) -> Result<Vec<Option<u32>>, Memory>
    ensures { IfOk result (λ numbers. AreNumbersOf opening.now orders.now numbers.items) }
{
    let mut numbers = Vec::with_capacity(alloc, orders.len())?;
    for order in orders {
        numbers.push(opening.orders().find(order))?;
    }
    Ok(numbers)
}

impl NewWave {
    /// A wave of a name and orders, with the memory that it needs once it is submitted.
    pub fn prepare(
        alloc: Global,
        opening: &Opening,
        name: &Name,
        orders: &Names,
    ) -> Result<NewWave, Memory>
        requires read { IsReadOpening opening.now }
        requires size { size_fault orders.now ≡ None }
        ensures submits { IfOk result (λ new. submit_of new ≡ command.Submit name.now orders.now) }
        ensures prepared { IfOk result (IsPrepared opening.now) }
    {
        let numbers = numbers_of(alloc, opening, orders.as_slice())?;
        let needs = needs_of(alloc, opening, orders, &numbers)?;
        let cell = Cell::new(alloc)?;
        Ok(NewWave {
            name: *name,
            numbers,
            needs,
            cell,
        })
    }

    // The wave, of which nothing was done, and room for it.
    fn into_wave(self) -> (KeptWave, Cell<NumberedWave>)
        ensures { result.0 ≡ wave_of_new self }
    {
        let orders = CalledOrders::of(&self.needs.orders);
        let NewWave {
            name,
            numbers,
            needs,
            cell,
        } = self;
        let wave = KeptWave {
            name,
            orders,
            numbers,
            stage: Stage::Submitted(needs),
            picked: false,
        };
        (wave, cell)
    }
}

// The units of all lines of an order together, which are at most 5,000,000.
fn line_units(lines: &[Line]) -> u32
    requires { line_units lines.now < 2 ^ 32 }
    ensures { result ≡ line_units lines.now }
{
    let mut units = 0;
    for line in lines {
        units += line.quantity;
    }
    units
}

// Why no cart holds the order that has this name and number: it has more units than a cart.
fn cart_fault(opening: &Opening, order: &Name, number: u32) -> Option<Reply>
    requires read { IsReadOpening opening.now }
    requires found { article_in (map name_of opening.now.orders) order.now ≡ Some number }
    ensures { result ≡ cart_fault opening.now order.now }
{
    let cart = opening.units()?;
    let units = line_units(opening.orders().lines(number));
    if units > cart {
        return Some(Reply::OverCart {
            order: *order,
            units,
        });
    }
    None
}

// Why an order, which has this number where the opening has it, can't join a wave, after the orders that were named
// before it.
fn order_fault(
    takers: &[Option<Name>],
    opening: &Opening,
    before: &[Name],
    order: &Name,
    number: Option<u32>,
) -> Option<Reply>
    requires read { IsReadOpening opening.now }
    requires numbered { number ≡ order_number opening.now order.now }
    requires count { length takers.now ≡ length opening.now.orders }
    ensures { (waves : List Wave) → AreTakers opening.now waves takers.now
        → result ≡ order_fault opening.now waves before.now order.now }
{
    let Some(number) = number else {
        return Some(Reply::UnknownOrder(*order));
    };
    if before.contains(order) {
        return Some(Reply::OrderTwice(*order));
    }
    let taker = takers[number as usize];
    match taker {
        Some(wave) => Some(Reply::OrderTaken {
            order: *order,
            wave,
        }),
        None => cart_fault(opening, order, number),
    }
}

/// Why orders, which have these numbers, can't make a wave, by the first of them that can't join it. None comes exactly
/// where each can.
pub fn first_order_fault(
    takers: &[Option<Name>],
    opening: &Opening,
    orders: &[Name],
    numbers: &[Option<u32>],
) -> Option<Reply>
    requires read { IsReadOpening opening.now }
    requires numbered { AreNumbersOf opening.now orders.now numbers.now }
    requires count { length takers.now ≡ length opening.now.orders }
    ensures { (waves : List Wave) → AreTakers opening.now waves takers.now
        → result ≡ first_order_fault opening.now waves [] orders.now }
{
    for place in 0..orders.len() {
        let number = numbers[place];
        let fault = order_fault(takers, opening, &orders[..place], &orders[place], number);
        if fault.is_some() {
            return fault;
        }
    }
    None
}

impl Floor {
    /// Submit: the wave joins the others, and has its orders.
    pub fn submit(&mut self, opening: &Opening, new: NewWave) -> Reply
        requires floor { IsFloor opening.now self.old }
        requires new { IsPrepared opening.now new }
        requires few { wave_count self.old + 1 < 2 ^ 32 }
        ensures { HasStepped opening.now (submit_of new) self.old self.new result }
    {
        if self.waves.has(&new.name) {
            return Reply::KnownWave;
        }
        let orders = new.needs.orders.as_slice();
        let numbers = new.numbers.as_slice();
        if let Some(fault) = first_order_fault(self.takers.as_slice(), opening, orders, numbers) {
            return fault;
        }
        let (wave, cell) = new.into_wave();
        put_takers(&mut self.takers, &wave, &Some(wave.name));
        self.waves.push(wave, cell);
        Reply::Submitted
    }
}
