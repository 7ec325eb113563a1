//! Dealing the free units of articles to the orders that want them.
ghost use Rattle.std.specs.Prelude.{◌≡◌, ◌+◌, ◌<◌, None, length};
ghost use Rattle.wp_book.specs.Calls.{KeepsOthers};
ghost use Rattle.wp_book.specs.Room.{Content};
ghost use Rattle.wp_allot.specs.DealtUnits.{AreDealtUnits, CanDeal, IsDealt};
ghost use Rattle.wp_allot.specs.UntouchedStock.{KeepsEarlier, KeepsExcepted, KeepsOtherArticles};
ghost use Rattle.wp_allot.specs.Wants.{AreRegular, HasOverlaps, IsAllotted, IsRoomFor, IsShort};

use crate::cover::wanted_units;
use crate::mark::Mark;
use crate::serve::serve;
use crate::want::Want;
use wp_book::{Room, StockBook};

// Deals an article to the orders that want it, in their order.
fn deal_article(
    book: &StockBook,
    wants: &[Want],
    article: u32,
    except: Option<u32>,
    room: &mut Room,
)
    requires { CanDeal book.now.rows wants.now article except room.old }
    ensures { IsDealt book.now.rows wants.now article except room.old room.new }
{
    let mut mark = Mark::start();
    for want in wants {
        if want.article == article {
            serve(book, want, except, &mut mark, room);
        }
    }
}

// Deals the article of the want at a place, unless an earlier want is of it.
fn deal_first(book: &StockBook, wants: &[Want], place: usize, except: Option<u32>, room: &mut Room)
    requires place { place < length wants.now }
    requires regular { AreRegular wants.now }
    requires covered { IsShort book.now.rows wants.now except None }
    requires dealt { AreDealtUnits book.now.rows wants.now except place room.old }
    ensures size { room.new.size ≡ room.old.size }
    ensures dealt { AreDealtUnits book.now.rows wants.now except (place + 1) room.new }
{
    let article = wants[place].article;
    if wanted_units(&wants[..place], article) == 0 {
        deal_article(book, wants, article, except, room);
    }
}

/// Fills empty room with what orders take from rows by overlap: a hold for each order at each row of which it takes
/// units, by order and then by row. Nothing may be short, and the room needs space for one hold a row of the wanted
/// articles and one a want. It takes no memory.
pub fn holds_by_overlap(book: &StockBook, wants: &[Want], except: Option<u32>, room: &mut Room)
    requires regular { AreRegular wants.now }
    requires covered { IsShort book.now.rows wants.now except None }
    requires room { IsRoomFor book.now.rows wants.now room.old }
    ensures { HasOverlaps book.now.rows wants.now except room.old room.new }
{
    for place in 0..wants.len() {
        deal_first(book, wants, place, except, room);
    }
    room.sort();
}

/// Holds stock for a wave by overlap: the units that its orders take from the rows go from free to held. Rows of
/// articles that they don't want, the excepted row, what other waves hold and what the wave held before stay as they
/// are. Nothing may be short, and the room needs space for one hold a row of the wanted articles and one a want. It
/// takes no memory.
pub fn allot(book: &mut StockBook, wave: u32, wants: &[Want], except: Option<u32>, mut room: Room)
    requires regular { AreRegular wants.now }
    requires covered { IsShort book.old.rows wants.now except None }
    requires room { IsRoomFor book.old.rows wants.now room }
    ensures exact { IsAllotted wave wants.now except book.old book.new }
    ensures others { KeepsOtherArticles wants.now book.old.rows book.new.rows }
    ensures excepted { KeepsExcepted except book.old.rows book.new.rows }
    ensures waves { KeepsOthers wave book.old book.new }
    ensures earlier { KeepsEarlier wave wants.now except book.old book.new }
{
    holds_by_overlap(book, wants, except, &mut room);
    book.hold(wave, room);
}
