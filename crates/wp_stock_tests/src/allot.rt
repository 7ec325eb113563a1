ghost use Rattle.std.specs.Prelude.{◌≡◌, ◌+◌, ◌≤◌, ◌<◌, ℕ, All, Some, length, IsTrue, IfOk, slice_get};
ghost use Rattle.wp_allot.specs.Wants.{AreGathered, AreRegular, IsRoomFor};
ghost use Rattle.wp_allot.specs.declared.want.Want.{Want as WantData};

use crate::given::{Held, STOCK, Units, are_holds, book_of, has_rows, stock_of};
use std::alloc::Global;
use std::process::Abort;
use std::test::Fail;
use wp_allot::{Short, Want, allot, gathered, short_article};
use wp_book::{Room, StockBook};

/// An order, an article and so many units.
type Wanted = (u32, u32, u64);

fn want(wanted: Wanted) -> Want {
    let (order, article, quantity) = wanted;
    Want {
        order,
        article,
        quantity,
    }
}

fn pair(wanted: [Wanted; 2]) -> [Want; 2] {
    [want(wanted[0]), want(wanted[1])]
}

/// Whether the want at a place may stand after all before it.
fn follows(wants: &[Want], place: usize) -> bool
    requires { place < length wants.now }
    ensures { IsTrue result → (k : ℕ) (v w : WantData) → k < place → slice_get wants.now k ≡ Some v
        → slice_get wants.now place ≡ Some w → (v.order ≤ w.order)
        × (v.order ≡ w.order → v.article ≡ w.article → ⊥) }
{
    let last = wants[place];
    for k in 0..place {
        let other = wants[k];
        if other.order > last.order || other.order == last.order && other.article == last.article {
            return false;
        }
    }
    true
}

/// Whether each want may stand after all before it.
fn all_follow(wants: &[Want]) -> bool
    ensures { IsTrue result → (j k : ℕ) (v w : WantData) → k < j → slice_get wants.now k ≡ Some v
        → slice_get wants.now j ≡ Some w → (v.order ≤ w.order) ×
        (v.order ≡ w.order → v.article ≡ w.article → ⊥) }
{
    for place in 0..wants.len() {
        if !follows(wants, place) {
            return false;
        }
    }
    true
}

/// Whether each want is of 1 to 1,000,000 units.
fn are_moderate(wants: &[Want]) -> bool
    ensures { IsTrue result → All (λ (want : WantData). (0 < want.quantity)
        × (want.quantity ≤ 1000000)) wants.now }
{
    for want in wants {
        if want.quantity == 0 || want.quantity > 1_000_000 {
            return false;
        }
    }
    true
}

/// Whether each want is of one of so many articles.
fn are_known(wants: &[Want], articles: u32) -> bool
    ensures { IsTrue result → All (λ (want : WantData). want.article < articles) wants.now }
{
    for want in wants {
        if want.article >= articles {
            return false;
        }
    }
    true
}

/// Whether the wants are regular, and no more than 1,000.
fn are_regular(wants: &[Want]) -> bool
    ensures regular { IsTrue result → AreRegular wants.now }
    ensures few { IsTrue result → length wants.now ≤ 1000 }
{
    wants.len() <= 1000 && all_follow(wants) && are_moderate(wants)
}

/// Gathers regular wants.
fn gather(rt: &impl Abort, wants: &mut [Want])
    ensures gathered { AreGathered wants.new }
    ensures few { length wants.new ≤ 1000 }
{
    assert!(rt; are_regular(wants));
    gathered::gather(wants);
    assert!(rt; wants.len() <= 1000);
}

/// Room for what is held for the wants.
fn room_for(rt: &impl Abort, alloc: Global, book: &StockBook, wants: &[Want]) -> Result<Room, Fail>
    requires { length wants.now ≤ 1000 }
    ensures { IfOk result (λ room. IsRoomFor book.now.rows wants.now room) }
{
    assert!(rt; book.rows() <= 1_000_000);
    Ok(Room::new(alloc, book.rows() + wants.len() as u32)?)
}

/// A wave holds what is wanted.
fn allot_all(
    rt: &impl Abort,
    alloc: Global,
    book: &mut StockBook,
    wave: u32,
    wants: &[Want],
    except: Option<u32>,
) -> Result<(), Fail> {
    assert!(rt; are_regular(wants));
    assert!(rt; short_article(book, wants, except).is_none());
    let room = room_for(rt, alloc, book, wants)?;
    allot(book, wave, wants, except, room);
    Ok(())
}

/// What is held for gathered wants.
fn gathered_room(
    rt: &impl Abort,
    alloc: Global,
    book: &StockBook,
    wants: &[Want],
    except: Option<u32>,
) -> Result<Room, Fail>
    requires gathered { AreGathered wants.now }
    requires few { length wants.now ≤ 1000 }
{
    assert!(rt; gathered::short_article(book, wants, except).is_none());
    let mut room = room_for(rt, alloc, book, wants)?;
    gathered::holds_by_overlap(book, wants, except, &mut room);
    Ok(room)
}

/// The wave 3 holds what is wanted by gathered wants, and that is listed.
fn gathered_list(
    rt: &impl Abort,
    alloc: Global,
    book: &mut StockBook,
    wants: &[Want],
    except: Option<u32>,
) -> Result<Room, Fail>
    requires gathered { AreGathered wants.now }
    requires few { length wants.now ≤ 1000 }
{
    assert!(rt; gathered::short_article(book, wants, except).is_none());
    let room = room_for(rt, alloc, book, wants)?;
    let mut list = room_for(rt, alloc, book, wants)?;
    gathered::allot(book, 3, wants, except, room, &mut list);
    Ok(list)
}

/// Wants beside an excepted row, what is held for them, and the rows after that.
#[derive(Clone, Copy)]
struct Dealt {
    stock: &'static str,
    wants: [Wanted; 2],
    except: Option<u32>,
    held: &'static [Held],
    rows: &'static [Units],
}

/// Rows of the articles 0 and 1 in turns.
const MIXED: &str =
    "location,article,on_hand\n1-1-L,A,3\n1-2-L,B,4\n1-3-L,A,5\n1-4-L,B,2\n1-5-L,A,9\n";

const DEALT: [Dealt; 9] = [
    Dealt {
        stock: STOCK,
        wants: [(0, 0, 2), (1, 0, 4)],
        except: None,
        held: &[(0, 0, 2), (1, 0, 1), (1, 1, 3)],
        rows: &[(3, 0, 3), (4, 1, 3), (5, 5, 0)],
    },
    Dealt {
        stock: STOCK,
        wants: [(0, 0, 3), (1, 0, 4)],
        except: None,
        held: &[(0, 0, 3), (1, 1, 4)],
        rows: &[(3, 0, 3), (4, 0, 4), (5, 5, 0)],
    },
    Dealt {
        stock: STOCK,
        wants: [(0, 1, 5), (0, 0, 7)],
        except: None,
        held: &[(0, 0, 3), (0, 1, 4), (0, 2, 5)],
        rows: &[(3, 0, 3), (4, 0, 4), (5, 0, 5)],
    },
    Dealt {
        stock: STOCK,
        wants: [(2, 0, 1), (5, 1, 1)],
        except: None,
        held: &[(2, 0, 1), (5, 2, 1)],
        rows: &[(3, 2, 1), (4, 4, 0), (5, 4, 1)],
    },
    Dealt {
        stock: STOCK,
        wants: [(0, 0, 3), (1, 0, 1)],
        except: Some(0),
        held: &[(0, 1, 3), (1, 1, 1)],
        rows: &[(3, 3, 0), (4, 0, 4), (5, 5, 0)],
    },
    Dealt {
        stock: STOCK,
        wants: [(0, 0, 3), (1, 0, 1)],
        except: Some(2),
        held: &[(0, 0, 3), (1, 1, 1)],
        rows: &[(3, 0, 3), (4, 3, 1), (5, 5, 0)],
    },
    Dealt {
        stock: MIXED,
        wants: [(0, 0, 4), (1, 0, 6)],
        except: None,
        held: &[(0, 0, 3), (0, 2, 1), (1, 2, 4), (1, 4, 2)],
        rows: &[(3, 0, 3), (4, 4, 0), (5, 0, 5), (2, 2, 0), (9, 7, 2)],
    },
    Dealt {
        stock: MIXED,
        wants: [(0, 0, 4), (1, 0, 6)],
        except: Some(2),
        held: &[(0, 0, 3), (0, 4, 1), (1, 4, 6)],
        rows: &[(3, 0, 3), (4, 4, 0), (5, 5, 0), (2, 2, 0), (9, 2, 7)],
    },
    Dealt {
        stock: MIXED,
        wants: [(0, 1, 5), (1, 0, 7)],
        except: None,
        held: &[(0, 1, 4), (0, 3, 1), (1, 0, 3), (1, 2, 4)],
        rows: &[(3, 0, 3), (4, 0, 4), (5, 1, 4), (2, 1, 1), (9, 9, 0)],
    },
];

/// Whether the wave 3 holds these.
fn are_held(book: &StockBook, held: &[Held]) -> bool {
    for (order, row, units) in held {
        if book.held_at(3, *order, *row) != *units {
            return false;
        }
    }
    true
}

/// Whether a book is as it is after the wants are held. Its rows hold no more than what the wave 3 does.
fn is_after(book: &StockBook, dealt: &Dealt) -> bool {
    has_rows(book, dealt.rows) && are_held(book, dealt.held)
}

fn is_dealt(rt: &impl Abort, alloc: Global, dealt: &Dealt) -> Result<bool, Fail> {
    let mut book = book_of(alloc, dealt.stock)?;
    allot_all(rt, alloc, &mut book, 3, &pair(dealt.wants), dealt.except)?;
    Ok(is_after(&book, dealt))
}

/// The same once the wants are gathered, and the list of what is held is the same too.
fn is_dealt_gathered(rt: &impl Abort, alloc: Global, dealt: &Dealt) -> Result<bool, Fail> {
    let mut wants = pair(dealt.wants);
    gather(rt, &mut wants);
    let mut book = book_of(alloc, dealt.stock)?;
    let room = gathered_room(rt, alloc, &book, &wants, dealt.except)?;
    let list = gathered_list(rt, alloc, &mut book, &wants, dealt.except)?;
    Ok(
        is_after(&book, dealt)
            && are_holds(room.as_slice(), dealt.held)
            && are_holds(list.as_slice(), dealt.held),
    )
}

#[test]
fn orders_take_what_overlaps(rt: HostRuntime) -> Result<(), Fail> {
    for dealt in &DEALT {
        assert!(rt; is_dealt(&rt, rt.alloc(), dealt)?);
    }
    Ok(())
}

#[test]
fn gathered_wants_are_held_alike_and_listed(rt: HostRuntime) -> Result<(), Fail> {
    for dealt in &DEALT {
        assert!(rt; is_dealt_gathered(&rt, rt.alloc(), dealt)?);
    }
    Ok(())
}

/// Three waves hold one after the other.
fn allot_three(rt: &impl Abort, alloc: Global, book: &mut StockBook) -> Result<(), Fail> {
    allot_all(rt, alloc, book, 0, &[want((0, 0, 2))], None)?;
    allot_all(rt, alloc, book, 0, &[want((0, 0, 4))], Some(0))?;
    allot_all(rt, alloc, book, 1, &[], None)
}

#[test]
fn waves_hold_one_after_the_other(rt: HostRuntime) -> Result<(), Fail> {
    let mut book = book_of(rt.alloc(), STOCK)?;
    allot_three(&rt, rt.alloc(), &mut book)?;
    assert!(rt; has_rows(&book, &[(3, 1, 2), (4, 0, 4), (5, 5, 0)]));
    assert_eq!(rt; book.held_at(0, 0, 1), 4);
    assert!(rt; book.holds_none(1));
    Ok(())
}

/// Wants, the excepted row, and what is short.
const SHORT: [([Wanted; 2], Option<u32>, Option<Short>); 7] = [
    (
        [(0, 0, 4), (1, 0, 4)],
        None,
        Some(Short {
            article: 0,
            wanted: 8,
            free: 7,
        }),
    ),
    ([(0, 0, 4), (1, 0, 3)], None, None),
    (
        [(0, 0, 5), (1, 1, 1)],
        Some(0),
        Some(Short {
            article: 0,
            wanted: 5,
            free: 4,
        }),
    ),
    ([(0, 0, 4), (1, 1, 1)], Some(0), None),
    (
        [(0, 1, 9), (0, 0, 9)],
        None,
        Some(Short {
            article: 0,
            wanted: 9,
            free: 7,
        }),
    ),
    (
        [(0, 2, 1), (0, 1, 6)],
        None,
        Some(Short {
            article: 1,
            wanted: 6,
            free: 5,
        }),
    ),
    (
        [(0, 7, 1), (1, 0, 7)],
        None,
        Some(Short {
            article: 7,
            wanted: 1,
            free: 0,
        }),
    ),
];

/// Whether this is short of the wants, and the same once they are gathered.
fn is_short(
    rt: &impl Abort,
    book: &StockBook,
    wants: &mut [Want],
    except: Option<u32>,
    short: Option<Short>,
) -> bool {
    assert!(rt; are_regular(wants));
    let told = short_article(book, wants, except) == short;
    gather(rt, wants);
    told && gathered::short_article(book, wants, except) == short
}

#[test]
fn short_articles_are_told(rt: HostRuntime) -> Result<(), Fail> {
    let book = book_of(rt.alloc(), STOCK)?;
    for (wants, except, short) in &SHORT {
        assert!(rt; is_short(&rt, &book, &mut pair(*wants), *except, *short));
    }
    assert!(rt; has_rows(&book, &[(3, 3, 0), (4, 4, 0), (5, 5, 0)]));
    Ok(())
}

/// Wants, and how many holds stock for them takes at most.
const MOST: [([Wanted; 2], u64); 4] = [
    ([(0, 0, 4), (1, 0, 3)], 4),
    ([(0, 0, 1), (1, 1, 1)], 2),
    ([(0, 0, 9), (1, 1, 9)], 5),
    ([(0, 1, 9), (1, 1, 9)], 3),
];

/// How many holds stock for the wants takes at most.
fn most_holds_for(rt: &impl Abort, alloc: Global, wants: &mut [Want]) -> Result<u64, Fail> {
    let stock = stock_of(alloc, STOCK)?;
    gather(rt, wants);
    assert!(rt; are_known(wants, stock.articles()));
    Ok(gathered::most_holds(&stock, wants))
}

#[test]
fn holds_are_counted_beforehand(rt: HostRuntime) -> Result<(), Fail> {
    for (wants, most) in &MOST {
        assert_eq!(rt; most_holds_for(&rt, rt.alloc(), &mut pair(*wants))?, *most);
    }
    Ok(())
}
