//! Serving an order from the free units of an article.
ghost use Rattle.std.specs.Prelude.{◌≡◌, ◌<◌, ◌^◌, ◌==◌, ◌++◌, ◌∷◌, [], length, if◌then◌else◌};
ghost use Rattle.wp_model.specs.Demand.{offer_at};
ghost use Rattle.wp_allot.specs.DealtUnits.{CanServe, IsServed};

use crate::mark::Mark;
use crate::want::Want;
use wp_book::{Hold, Room, StockBook};

// The free units of an article that a row offers, by its number; none where it is excepted.
fn offered(book: &StockBook, article: u32, except: Option<u32>, row: u32) -> u32
    ensures units { result ≡ offer_at book.now.rows article except row }
    ensures rows { length book.now.rows < 2 ^ 32 }
{
    if row >= book.rows() || except == Some(row) {
        return 0;
    }
    let row = book.row(row);
    if row.article == article { row.free } else { 0 }
}

// Puts a hold into the room, where it is of any unit.
fn put_units(room: &mut Room, hold: Hold)
    requires { 0 < hold.quantity → length room.old.holds < room.old.size }
    ensures { room.new ≡ (if hold.quantity == 0 then room.old
        else record room.old { holds = room.old.holds ++ hold ∷ [] }) }
{
    if hold.quantity > 0 {
        room.put(hold);
    }
}

/// Deals to an order the units that it wants, from the mark on, as holds at the rows that they lie in.
pub fn serve(book: &StockBook, want: &Want, except: Option<u32>, mark: &mut Mark, room: &mut Room)
    requires { CanServe book.now.rows want.now except mark.old room.old }
    ensures { IsServed book.now.rows want.now except 0 mark.old mark.new room.old room.new }
{
    let mut wanted = want.quantity;
    while wanted > 0 {
        let row = book.place(want.article, mark.place);
        let left = offered(book, want.article, except, row) - mark.taken;
        let quantity = wanted.min(u64::from(left)) as u32;
        put_units(
            room,
            Hold {
                order: want.order,
                row,
                quantity,
            },
        );
        mark.pass(quantity, left);
        wanted -= u64::from(quantity);
    }
}
