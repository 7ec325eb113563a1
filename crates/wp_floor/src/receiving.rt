//! Receive: units that come to a row.
ghost use Rattle.std.specs.Prelude.{◌≡◌, ◌<◌, length, slice_get, Some};
ghost use Rattle.wp_floor.specs.Floor.{HasStepped, IsFloor, state_of};
ghost use Rattle.wp_floor.specs.HeldUnits.{IsRowAt};
ghost use Rattle.wp_floor.specs.ReceivedUnits.{AllHaveArticles, HasReceivedAt};
ghost use Rattle.wp_model.specs.declared.command.Command.TheVariants as command;
ghost use Rattle.wp_model.specs.declared.row.Row.{Row as RowData};

use crate::floor::Floor;
use crate::opening::Opening;
use wp_book::StockBook;
use wp_model::{Location, MOST_ON_HAND, Name, Reply};

// Units of an article come to a row.
fn receive_at(
    book: &mut StockBook,
    opening: &Opening,
    row: u32,
    article: &Name,
    quantity: u32,
) -> Reply
    requires rows { row < length book.old.rows }
    requires articles { AllHaveArticles opening.now book.old.rows }
    ensures { (r : RowData) → slice_get book.old.rows row ≡ Some r
        → HasReceivedAt opening.now article.now quantity row r book.old book.new result }
{
    let now = book.row(row);
    let owner = opening.stock().article(now.article);
    if owner != *article {
        return Reply::OtherArticle(owner);
    }
    if u64::from(now.on_hand) + u64::from(quantity) > MOST_ON_HAND {
        return Reply::TooMany(now.on_hand);
    }
    book.receive(row, quantity);
    Reply::Received
}

impl Floor {
    /// Receive: units of an article come to the row at a location, whose number in the opening this is.
    pub fn receive(
        &mut self,
        opening: &Opening,
        location: &Location,
        row: Option<u32>,
        article: &Name,
        quantity: u32,
    ) -> Reply
        requires floor { IsFloor opening.now self.old }
        requires row { IsRowAt (state_of self.old).rows location.now row }
        ensures { HasStepped opening.now (command.Receive location.now article.now quantity)
            self.old self.new result }
    {
        match row {
            Some(row) => receive_at(&mut self.book, opening, row, article, quantity),
            None => Reply::NoRow,
        }
    }
}
