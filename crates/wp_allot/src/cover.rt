//! Whether free stock covers what is wanted.
ghost use Rattle.std.specs.Prelude.{◌≡◌, ◌+◌, ◌<◌, ◌^◌, ℕ, List, Option, Some, slice_get};
ghost use Rattle.std.specs.List.{sum_by};
ghost use Rattle.wp_model.specs.declared.row.Row.{Row as RowData};
ghost use Rattle.wp_allot.specs.Cover.{IsFirstAmong, IsShortage};
ghost use Rattle.wp_allot.specs.Wants.{AreRegular, IsShort, wanted_of};
ghost use Rattle.wp_allot.specs.declared.want.Want.{Want as WantData};

use crate::want::{Short, Want};
use wp_book::StockBook;

/// How many units of an article are wanted.
pub fn wanted_units(wants: &[Want], article: u32) -> u64
    requires { sum_by (λ (want : WantData). want.quantity) wants.now < 2 ^ 64 }
    ensures { result ≡ wanted_of wants.now article }
{
    let mut units = 0;
    for want in wants {
        if want.article == article {
            units += want.quantity;
        }
    }
    units
}

/// The numbers of an article of which so much is wanted, where less is free.
pub fn shortage(book: &StockBook, article: u32, wanted: u64, except: Option<u32>) -> Option<Short>
    ensures { (wants : List WantData) → wanted ≡ wanted_of wants article
        → IsShortage book.now.rows wants except article result }
{
    let free = book.free_of(article, except);
    if free < wanted {
        Some(Short {
            article,
            wanted,
            free,
        })
    } else {
        None
    }
}

// The one with the smaller article.
fn earlier(first: Option<Short>, other: Option<Short>) -> Option<Short>
    ensures { (rows : List RowData) (wants : List WantData) (except : Option ℕ) (count : ℕ)
        (want : WantData) → slice_get wants count ≡ Some want
        → IsFirstAmong rows wants except count first → IsShortage rows wants except want.article other
        → IsFirstAmong rows wants except (count + 1) result }
{
    match (first, other) {
        (Some(one), Some(two)) if one.article <= two.article => Some(one),
        (Some(one), None) => Some(one),
        (_, other) => other,
    }
}

/// The article with the least number of which less is free than is wanted, the excepted row left out, with both sums;
/// none where there is enough of every article.
pub fn short_article(book: &StockBook, wants: &[Want], except: Option<u32>) -> Option<Short>
    requires { AreRegular wants.now }
    ensures { IsShort book.now.rows wants.now except result }
{
    let mut first = None;
    for want in wants {
        let wanted = wanted_units(wants, want.article);
        first = earlier(first, shortage(book, want.article, wanted, except));
    }
    first
}
