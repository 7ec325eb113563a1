//! Wants that are gathered: they go by their articles, and those of one article by their orders. So all that is wanted
//! of an article stands together, and whether it is covered, and what its orders take, is one pass over the wants.
ghost use Rattle.std.specs.Prelude.{◌≡◌, ◌<◌, ◌≤◌, ◌^◌, None, length, take};
ghost use Rattle.std.specs.List.{All};
ghost use Rattle.std.specs.List.Sorted.{IsPermutation};
ghost use Rattle.wp_model.specs.Tables.{IsReadStock};
ghost use Rattle.wp_book.specs.Calls.{KeepsOthers};
ghost use Rattle.wp_allot.specs.DealtUnits.{AreDealtUnits, CanDeal, IsDealt};
ghost use Rattle.wp_allot.specs.Gathered.{AreOfArticle, IsBorder};
ghost use Rattle.wp_allot.specs.UntouchedStock.{KeepsEarlier, KeepsExcepted, KeepsOtherArticles};
ghost use Rattle.wp_allot.specs.Wants.{AreGathered, AreRegular, HasOverlaps, IsAllotted, IsRoomFor, IsShort};
ghost use Rattle.wp_allot.specs.Wants.{holds_at_most, units_in, wanted_places};
ghost use Rattle.wp_allot.specs.declared.want.Want.{Want as WantData};

use crate::cover::shortage;
use crate::mark::Mark;
use crate::serve::serve;
use crate::want::{Short, Want};
use wp_book::{Room, StockBook};
use wp_tables::Stock;

/// Puts wants into the order of their articles, and those of one article into that of their orders. It takes no memory.
pub fn gather(wants: &mut [Want])
    requires { AreRegular wants.old }
    ensures gathered { AreGathered wants.new }
    ensures same { IsPermutation wants.old wants.new }
{
    wants.sort_unstable_by_key(|want| (want.article, want.order));
}

/// What is wanted of an article: so many units, by the wants up to an end.
#[derive(Clone, Copy)]
pub struct ArticleWants {
    pub article: u32,
    pub units: u64,
    pub end: usize,
}

// The wants of the article of the one at a start, before which there are none of it.
fn wants_at(wants: &[Want], start: usize) -> ArticleWants
    requires gathered { AreGathered wants.now }
    requires within { start < length wants.now }
    requires border { IsBorder wants.now start }
    ensures { AreOfArticle wants.now start result }
{
    let article = wants[start].article;
    let mut units = 0;
    let mut end = start;
    while end < wants.len() && wants[end].article == article {
        units += wants[end].quantity;
        end += 1;
    }
    ArticleWants {
        article,
        units,
        end,
    }
}

/// The article with the least number of which less is free than is wanted, the excepted row left out, with both sums;
/// none where there is enough of every article.
pub fn short_article(book: &StockBook, wants: &[Want], except: Option<u32>) -> Option<Short>
    requires { AreGathered wants.now }
    ensures { IsShort book.now.rows wants.now except result }
{
    let mut start = 0;
    while start < wants.len() {
        let of = wants_at(wants, start);
        if let Some(short) = shortage(book, of.article, of.units, except) {
            return Some(short);
        }
        start = of.end;
    }
    None
}

// Deals an article to the orders of its wants, which stand from a start on.
fn deal_wants(
    book: &StockBook,
    wants: &[Want],
    start: usize,
    of: &ArticleWants,
    except: Option<u32>,
    room: &mut Room,
)
    requires of { AreOfArticle wants.now start of.now }
    requires can { CanDeal book.now.rows wants.now of.now.article except room.old }
    ensures { IsDealt book.now.rows wants.now of.now.article except room.old room.new }
{
    let mut mark = Mark::start();
    for place in start..of.end {
        serve(book, &wants[place], except, &mut mark, room);
    }
}

// Deals the article of the want at a start, and gives the place after its wants.
fn deal_article(
    book: &StockBook,
    wants: &[Want],
    start: usize,
    except: Option<u32>,
    room: &mut Room,
) -> usize
    requires gathered { AreGathered wants.now }
    requires covered { IsShort book.now.rows wants.now except None }
    requires within { start < length wants.now }
    requires border { IsBorder wants.now start }
    requires dealt { AreDealtUnits book.now.rows wants.now except start room.old }
    ensures size { room.new.size ≡ room.old.size }
    ensures dealt { AreDealtUnits book.now.rows wants.now except result room.new }
    ensures border { IsBorder wants.now result }
    ensures after { start < result }
    ensures within { result ≤ length wants.now }
{
    let of = wants_at(wants, start);
    deal_wants(book, wants, start, &of, except, room);
    of.end
}

/// Fills empty room with what orders take from rows by overlap: a hold for each order at each row of which it takes
/// units, by order and then by row. Nothing may be short, and the room needs space for one hold a row of the wanted
/// articles and one a want, or for one a unit, whichever is less. It takes no memory.
pub fn holds_by_overlap(book: &StockBook, wants: &[Want], except: Option<u32>, room: &mut Room)
    requires gathered { AreGathered wants.now }
    requires covered { IsShort book.now.rows wants.now except None }
    requires room { IsRoomFor book.now.rows wants.now room.old }
    ensures { HasOverlaps book.now.rows wants.now except room.old room.new }
{
    let mut start = 0;
    while start < wants.len() {
        start = deal_article(book, wants, start, except, room);
    }
    room.sort();
}

/// Holds stock for a wave by overlap, and lists what it holds in empty room: the units that its orders take from the
/// rows go from free to held. Rows of articles that they don't want, the excepted row, what other waves hold and what
/// the wave held before stay as they are. Nothing may be short, and each room needs space for one hold a row of the
/// wanted articles and one a want, or for one a unit, whichever is less. It takes no memory.
pub fn allot(
    book: &mut StockBook,
    wave: u32,
    wants: &[Want],
    except: Option<u32>,
    mut room: Room,
    list: &mut Room,
)
    requires gathered { AreGathered wants.now }
    requires covered { IsShort book.old.rows wants.now except None }
    requires room { IsRoomFor book.old.rows wants.now room }
    requires list { IsRoomFor book.old.rows wants.now list.old }
    ensures exact { IsAllotted wave wants.now except book.old book.new }
    ensures listed { HasOverlaps book.old.rows wants.now except list.old list.new }
    ensures others { KeepsOtherArticles wants.now book.old.rows book.new.rows }
    ensures excepted { KeepsExcepted except book.old.rows book.new.rows }
    ensures waves { KeepsOthers wave book.old book.new }
    ensures earlier { KeepsEarlier wave wants.now except book.old book.new }
{
    holds_by_overlap(book, wants, except, &mut room);
    list.put_all(room.as_slice());
    book.hold(wave, room);
}

// How many units are wanted.
fn units_wanted(wants: &[Want]) -> u64
    requires { units_in wants.now < 2 ^ 64 }
    ensures { result ≡ units_in wants.now }
{
    let mut units = 0;
    for want in wants {
        units += want.quantity;
    }
    units
}

// How many rows are of articles that are wanted.
fn rows_wanted(stock: &Stock, wants: &[Want]) -> u64
    requires read { IsReadStock stock.now }
    requires gathered { AreGathered wants.now }
    requires within { All (λ (want : WantData). want.article < length stock.now.articles)
        wants.now }
    ensures exact { result ≡ wanted_places stock.now.rows wants.now }
    ensures few { result < 2 ^ 32 }
{
    let mut rows = 0;
    let mut start = 0;
    while start < wants.len() {
        let of = wants_at(wants, start);
        rows += u64::from(stock.places(of.article));
        start = of.end;
    }
    rows
}

/// How many holds stock for wants takes at most: one a row of the wanted articles and one a want, or one a unit,
/// whichever is less.
pub fn most_holds(stock: &Stock, wants: &[Want]) -> u64
    requires read { IsReadStock stock.now }
    requires gathered { AreGathered wants.now }
    requires within { All (λ (want : WantData). want.article < length stock.now.articles)
        wants.now }
    requires few { length wants.now < 2 ^ 32 }
    ensures { result ≡ holds_at_most (wanted_places stock.now.rows wants.now) wants.now }
{
    let rows = rows_wanted(stock, wants);
    units_wanted(wants).min(rows + wants.len() as u64)
}
