//! What the orders of a wave want.
ghost use Rattle.std.specs.Prelude.{◌≡◌, ℕ, ◌+◌, ◌<◌, ◌≤◌, ◌^◌, ◌==◌, ◌∷◌, [], List, length, IfOk};
ghost use Rattle.std.specs.List.{All, position};
ghost use Rattle.wp_allot.specs.Wants.{units_in};
ghost use Rattle.wp_allot.specs.declared.want.Want.{Want as WantData};
ghost use Rattle.wp_model.specs.Opening.{IsLine, line_units, lines_of};
ghost use Rattle.wp_model.specs.Limits.{most_lines, most_wave_orders};
ghost use Rattle.wp_model.specs.Tables.{IsReadOpening};
ghost use Rattle.wp_floor.specs.Floor.{AreNumbersOf, AreWantsOf, order_number};
ghost use Rattle.wp_floor.specs.WantLists.{AreBefore, AreListedWants, AreSome, AreSplit, HaveAdded, KeepArticles};

use crate::opening::Opening;
use std::alloc::Global;
use wp_allot::Want;
use wp_allot::gathered::gather;
use wp_model::{Line, Memory};

// The place of the first want of an article.
fn find_article(wants: &[Want], article: u32) -> Option<usize>
    ensures { result ≡ position (λ (want : WantData). want.article == article) wants.now }
{
    wants.iter().position(|want| want.article == article)
}

// Adds a line of the order at a place, whose wants begin at a start: its units go to the order's want of its article,
// or make a want of their own, the last.
fn add_line(wants: &mut Vec<Want>, start: usize, place: u32, line: &Line) -> Result<(), Memory>
    requires split { AreSplit start place wants.old.items }
    requires some { 0 < line.now.quantity }
    requires small { units_in wants.old.items + line.now.quantity < 2 ^ 64 }
    ensures split { IfOk result (λ _. AreSplit start place wants.new.items) }
    ensures added { IfOk result (λ _. HaveAdded place
        (line.now ∷ []) wants.old.items wants.new.items) }
    ensures articles { IfOk result (λ _. KeepArticles
        (line.now ∷ []) wants.old.items wants.new.items) }
{
    let quantity = u64::from(line.quantity);
    match find_article(&wants[start..], line.article) {
        Some(offset) => {
            wants[start + offset].quantity += quantity;
            Ok(())
        }
        None => Ok(wants.push(Want {
            order: place,
            article: line.article,
            quantity,
        })?),
    }
}

// Adds the lines of the order at a place, after the wants of the orders before it.
fn add_order(wants: &mut Vec<Want>, place: u32, lines: &[Line]) -> Result<(), Memory>
    requires before { AreBefore place wants.old.items }
    requires some { AreSome lines.now }
    requires small { units_in wants.old.items + line_units lines.now < 2 ^ 64 }
    ensures before { IfOk result (λ _. AreBefore (place + 1) wants.new.items) }
    ensures added { IfOk result (λ _. HaveAdded place lines.now wants.old.items wants.new.items) }
    ensures articles { IfOk result (λ _. KeepArticles lines.now wants.old.items wants.new.items) }
{
    let start = wants.len();
    for line in lines {
        add_line(wants, start, place, line)?;
    }
    Ok(())
}

// The lines of an order by its number, none where it isn't known.
fn order_lines(opening: &Opening, number: Option<u32>) -> &[Line]
    requires read { IsReadOpening opening.now }
    requires named { (order : List ℕ) × (number ≡ order_number opening.now order) }
    ensures lines { (order : List ℕ) → number ≡ order_number opening.now order
        → result.now ≡ lines_of opening.now.orders order }
    ensures each { All (IsLine opening.now.stock.articles) result.now }
    ensures few { length result.now ≤ most_lines }
{
    match number {
        Some(number) => opening.orders().lines(number),
        None => &[],
    }
}

// What the orders of a wave, which have these numbers, want, order by order, each in its place: for an order one want
// an article that its lines are of, of the units of these lines. An order that isn't known wants nothing.
fn list_wants(
    alloc: Global,
    opening: &Opening,
    numbers: &[Option<u32>],
) -> Result<Vec<Want>, Memory>
    requires read { IsReadOpening opening.now }
    requires few { length numbers.now ≤ most_wave_orders }
    requires named { (orders : List (List ℕ)) × AreNumbersOf opening.now orders numbers.now }
    ensures { IfOk result (λ wants. (orders : List (List ℕ))
        → AreNumbersOf opening.now orders numbers.now
        → AreListedWants opening.now orders wants.items) }
{
    let mut wants = Vec::new(alloc);
    for (place, number) in numbers.iter().enumerate() {
        add_order(&mut wants, place as u32, order_lines(opening, *number))?;
    }
    Ok(wants)
}

/// What the orders of a wave, which have these numbers, want, article by article: for an order one want an article that
/// its lines are of, of the units of these lines. An order that isn't known wants nothing.
pub fn wants_of_orders(
    alloc: Global,
    opening: &Opening,
    numbers: &[Option<u32>],
) -> Result<Vec<Want>, Memory>
    requires read { IsReadOpening opening.now }
    requires few { length numbers.now ≤ most_wave_orders }
    requires named { (orders : List (List ℕ)) × AreNumbersOf opening.now orders numbers.now }
    ensures { IfOk result (λ wants. (orders : List (List ℕ))
        → AreNumbersOf opening.now orders numbers.now → AreWantsOf opening.now orders wants.items) }
{
    let mut wants = list_wants(alloc, opening, numbers)?;
    gather(&mut wants);
    Ok(wants)
}
