ghost use Rattle.std.specs.Prelude.{◌≡◌, ◌≤◌, ◌<◌, ◌^◌, ℕ, length, IsTrue, IfSome, slice_get};
ghost use Rattle.wp_model.specs.Book.{units_at};
ghost use Rattle.wp_book.specs.Calls.{CanHold};

use crate::given::{Held, STOCK, Units, are_holds, book_of, has_rows};
use std::alloc::Global;
use std::process::Abort;
use std::test::Fail;
use wp_book::{Hold, Room, StockBook};

/// What changes a book.
#[derive(Clone, Copy)]
enum Call {
    Hold(u32, &'static [Held]),
    Unhold(u32),
    Take(u32, u32, u32, u32),
    Receive(u32, u32),
}

/// The units that the holds have at a row.
fn units_of(holds: &[Hold], row: u32) -> u64
    requires { length holds.now < 2 ^ 31 }
    ensures { result ≡ units_at holds.now row }
{
    let mut units = 0;
    for hold in holds {
        if hold.row == row {
            units += u64::from(hold.quantity);
        }
    }
    units
}

/// Whether each row has free what the holds want of it.
fn are_free(book: &StockBook, holds: &[Hold]) -> bool
    requires { length holds.now < 2 ^ 31 }
    ensures { IsTrue result → (row : ℕ) → IfSome (slice_get book.now.rows row)
        (λ r. units_at holds.now row ≤ r.free) }
{
    for row in 0..book.rows() {
        if units_of(holds, row) > u64::from(book.row(row).free) {
            return false;
        }
    }
    true
}

/// Whether the holds can be held.
fn can_hold(book: &StockBook, holds: &[Hold]) -> bool
    requires { length holds.now < 2 ^ 31 }
    ensures { IsTrue result → CanHold book.now holds.now }
{
    let rows = book.rows();
    holds.iter().all(|hold| hold.row < rows) && are_free(book, holds)
}

/// Room with the holds.
fn room_of(rt: &impl Abort, alloc: Global, size: u32, holds: &[Held]) -> Result<Room, Fail> {
    let mut room = Room::new(alloc, size)?;
    for (order, row, quantity) in holds {
        assert!(rt; room.len() < room.size());
        room.put(Hold {
            order: *order,
            row: *row,
            quantity: *quantity,
        });
    }
    Ok(room)
}

fn hold_all(
    rt: &impl Abort,
    alloc: Global,
    book: &mut StockBook,
    wave: u32,
    holds: &[Held],
) -> Result<(), Fail> {
    let room = room_of(rt, alloc, 4, holds)?;
    assert!(rt; room.len() < 5);
    assert!(rt; can_hold(book, room.as_slice()));
    book.hold(wave, room);
    Ok(())
}

fn take(rt: &impl Abort, book: &mut StockBook, wave: u32, order: u32, row: u32, quantity: u32) {
    assert!(rt; quantity <= book.held_at(wave, order, row));
    book.take(wave, order, row, quantity);
}

fn receive(rt: &impl Abort, book: &mut StockBook, row: u32, quantity: u32) {
    assert!(rt; row < book.rows());
    assert!(rt; quantity <= 1_000_000);
    assert!(rt; book.row(row).on_hand + quantity <= 1_000_000);
    book.receive(row, quantity);
}

fn apply(rt: &impl Abort, alloc: Global, book: &mut StockBook, call: &Call) -> Result<(), Fail> {
    match call {
        Call::Hold(wave, holds) => hold_all(rt, alloc, book, *wave, holds)?,
        Call::Unhold(wave) => book.unhold(*wave),
        Call::Take(wave, order, row, quantity) => take(rt, book, *wave, *order, *row, *quantity),
        Call::Receive(row, quantity) => receive(rt, book, *row, *quantity),
    }
    Ok(())
}

/// The place of the first call after which the rows aren't as stands beside it.
fn first_other_rows(
    rt: &impl Abort,
    alloc: Global,
    book: &mut StockBook,
    calls: &[(Call, [Units; 3])],
) -> Result<Option<usize>, Fail> {
    for (at, (call, rows)) in calls.iter().enumerate() {
        apply(rt, alloc, book, call)?;
        if !has_rows(book, rows) {
            return Ok(Some(at));
        }
    }
    Ok(None)
}

/// Calls one after the other, and the rows after each.
const CALLS: [(Call, [Units; 3]); 11] = [
    (Call::Unhold(0), [(3, 3, 0), (4, 4, 0), (5, 5, 0)]),
    (
        Call::Hold(0, &[(0, 0, 2), (1, 0, 1), (1, 1, 3)]),
        [(3, 0, 3), (4, 1, 3), (5, 5, 0)],
    ),
    (
        Call::Hold(512, &[(0, 1, 1), (0, 2, 2), (3, 2, 3)]),
        [(3, 0, 3), (4, 0, 4), (5, 0, 5)],
    ),
    (Call::Take(0, 1, 1, 2), [(3, 0, 3), (2, 0, 2), (5, 0, 5)]),
    (Call::Receive(0, 7), [(10, 7, 3), (2, 0, 2), (5, 0, 5)]),
    (Call::Take(512, 3, 2, 0), [(10, 7, 3), (2, 0, 2), (5, 0, 5)]),
    (
        Call::Hold(0, &[(1, 0, 4), (1, 0, 1), (0, 0, 0)]),
        [(10, 2, 8), (2, 0, 2), (5, 0, 5)],
    ),
    (Call::Take(0, 1, 0, 6), [(4, 2, 2), (2, 0, 2), (5, 0, 5)]),
    (Call::Unhold(0), [(4, 4, 0), (2, 1, 1), (5, 0, 5)]),
    (Call::Unhold(0), [(4, 4, 0), (2, 1, 1), (5, 0, 5)]),
    (Call::Unhold(512), [(4, 4, 0), (2, 2, 0), (5, 5, 0)]),
];

#[test]
fn rows_follow_the_calls(rt: HostRuntime) -> Result<(), Fail> {
    let mut book = book_of(rt.alloc(), STOCK)?;
    assert!(rt; has_rows(&book, &[(3, 3, 0), (4, 4, 0), (5, 5, 0)]));
    assert_eq!(rt; first_other_rows(&rt, rt.alloc(), &mut book, &CALLS)?, None);
    Ok(())
}

/// Holds of three waves, of which two lie in one chain, and one is of nothing.
const THREE_WAVES: [(Call, [Units; 3]); 3] = [
    (
        Call::Hold(0, &[(0, 0, 2), (1, 0, 1), (1, 1, 3)]),
        [(3, 0, 3), (4, 1, 3), (5, 5, 0)],
    ),
    (
        Call::Hold(512, &[(1, 1, 1)]),
        [(3, 0, 3), (4, 0, 4), (5, 5, 0)],
    ),
    (
        Call::Hold(1, &[(0, 2, 0)]),
        [(3, 0, 3), (4, 0, 4), (5, 5, 0)],
    ),
];

/// What a book is asked, and what it tells.
#[derive(Clone, Copy)]
enum Told {
    /// A wave, an order and a row, and the units that are held there.
    Held(u32, u32, u32, u32),
    /// An article and the excepted row, and the units that are free.
    Free(u32, Option<u32>, u64),
    /// A wave, and whether it holds nothing.
    HoldsNone(u32, bool),
}

/// What the book of three waves tells.
const OF_THREE_WAVES: [Told; 20] = [
    Told::Held(0, 0, 0, 2),
    Told::Held(0, 1, 0, 1),
    Told::Held(0, 1, 1, 3),
    Told::Held(0, 0, 1, 0),
    Told::Held(512, 1, 1, 1),
    Told::Held(512, 1, 0, 0),
    Told::Held(1, 0, 2, 0),
    Told::Held(0, 2, 9, 0),
    Told::Free(0, None, 0),
    Told::Free(1, None, 5),
    Told::Free(1, Some(2), 0),
    Told::Free(1, Some(0), 5),
    Told::Free(1, Some(9), 5),
    Told::Free(2, None, 0),
    Told::Free(2, Some(0), 0),
    Told::HoldsNone(0, false),
    Told::HoldsNone(1, true),
    Told::HoldsNone(2, true),
    Told::HoldsNone(512, false),
    Told::HoldsNone(1024, true),
];

fn tells(book: &StockBook, told: &Told) -> bool {
    match told {
        Told::Held(wave, order, row, units) => book.held_at(*wave, *order, *row) == *units,
        Told::Free(article, except, units) => book.free_of(*article, *except) == *units,
        Told::HoldsNone(wave, none) => book.holds_none(*wave) == *none,
    }
}

/// The place of the first that a book tells otherwise.
fn first_told_otherwise(book: &StockBook, all: &[Told]) -> Option<usize> {
    for (at, told) in all.iter().enumerate() {
        if !tells(book, told) {
            return Some(at);
        }
    }
    None
}

#[test]
fn what_is_held_and_free_is_told(rt: HostRuntime) -> Result<(), Fail> {
    let mut book = book_of(rt.alloc(), STOCK)?;
    assert!(rt; book.holds_none(0) && book.holds_none(512));
    assert_eq!(rt;
        first_other_rows(&rt, rt.alloc(), &mut book, &THREE_WAVES)?,
        None
    );
    assert_eq!(rt; first_told_otherwise(&book, &OF_THREE_WAVES), None);
    Ok(())
}

/// Rows of the articles 0, 1 and 2 in turns.
const MIXED: &str =
    "location,article,on_hand\n1-1-L,A,3\n1-2-L,B,4\n1-3-L,A,5\n1-4-L,C,1\n1-5-L,B,2\n1-6-L,A,9\n";

/// An article, and the numbers of its rows.
const ROWS_OF: [(u32, &[u32]); 5] = [
    (0, &[0, 2, 5]),
    (1, &[1, 4]),
    (2, &[3]),
    (3, &[]),
    (u32::MAX, &[]),
];

/// Whether an article's rows are these.
fn are_rows_of(book: &StockBook, article: u32, rows: &[u32]) -> bool {
    for place in 0..book.places(article) {
        if rows.get(place as usize) != Some(&book.place(article, place)) {
            return false;
        }
    }
    rows.len() == book.places(article) as usize
}

#[test]
fn rows_of_articles_are_told(rt: HostRuntime) -> Result<(), Fail> {
    let book = book_of(rt.alloc(), MIXED)?;
    for (article, rows) in &ROWS_OF {
        assert!(rt; are_rows_of(&book, *article, rows));
    }
    Ok(())
}

const UNSORTED: [Held; 4] = [(1, 0, 7), (0, 3, 7), (1, 2, 7), (0, 1, 7)];

const SORTED: [Held; 4] = [(0, 1, 7), (0, 3, 7), (1, 0, 7), (1, 2, 7)];

#[test]
fn room_counts_and_sorts_its_holds(rt: HostRuntime) -> Result<(), Fail> {
    assert!(rt; Room::new(rt.alloc(), 5)?.is_empty());
    let mut room = room_of(&rt, rt.alloc(), 5, &UNSORTED)?;
    assert!(rt; room.size() == 5 && room.len() == 4 && !room.is_empty());
    assert!(rt; are_holds(room.as_slice(), &UNSORTED));
    room.sort();
    assert!(rt; are_holds(room.as_slice(), &SORTED));
    assert!(rt; are_holds(room.into_holds().as_slice(), &SORTED));
    Ok(())
}
