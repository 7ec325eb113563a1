//! What waves are made of.
ghost use Rattle.std.specs.Prelude.{◌≡◌, ◌<◌, ◌≤◌, ◌^◌, IsTrue, length};
ghost use Rattle.std.specs.List.{All};
ghost use Rattle.wp_model.specs.Limits.{most_lines};
ghost use Rattle.wp_model.specs.Opening.{IsLine, is_known_order, line_units, lines_of};
ghost use Rattle.wp_model.specs.Tables.{IsReadOpening};

use std::marker::Model;
use wp_model::{Line, Name};
use wp_tables::{Orders, Stock};

/// A stock, the orders that were read for it, and how many units a cart holds, none where carts hold any number.
/// Contracts see the opening that these are.
#[derive(Drop)]
pub struct OpenDay<'a> {
    stock: &'a Stock,
    orders: &'a Orders,
    units: Option<u32>,
}

impl<'a> Model for OpenDay<'a> {
    ghost use Rattle.wp_model.specs.Opening as opening;

    ghost Value = { opening.Opening };

    ghost use Rattle.wp_model.specs.Tables.{IsReadOpening};

    ghost view = { λ d. record { stock = d.stock.now; orders = d.orders.now; units = d.units } };

    ghost invariant = { λ d. IsReadOpening (record { stock = d.stock.now; orders = d.orders.now; units = d.units }) };
}

impl<'a> OpenDay<'a> {
    /// The day of a stock, of orders that were read for it, and of a cart.
    pub fn of(stock: &'a Stock, orders: &'a Orders, units: Option<u32>) -> OpenDay<'a>
        requires { IsReadOpening (record {
          stock = stock.now;
          orders = orders.now;
          units = units;
        }) }
        ensures { result ≡ record { stock = stock.now; orders = orders.now; units = units } }
    {
        OpenDay {
            stock,
            orders,
            units,
        }
    }

    /// The stock.
    pub fn stock(&self) -> &Stock
        ensures { result.now ≡ self.now.stock }
    {
        self.stock
    }

    /// How many articles the stock has.
    pub fn articles(&self) -> u32
        ensures articles { result ≡ length self.now.stock.articles }
        ensures read { IsReadOpening self.now }
    {
        self.stock.articles()
    }

    /// How many units a cart holds, none where carts hold any number.
    pub fn units(&self) -> Option<u32>
        ensures { result ≡ self.now.units }
    {
        self.units
    }

    /// The lines of an order, 1 to 50 of them, in the order of the file.
    pub fn lines(&self, order: &Name) -> &[Line]
        requires { IsTrue (is_known_order self.now.orders order.now) }
        ensures lines { result.now ≡ lines_of self.now.orders order.now }
        ensures each { All (IsLine self.now.stock.articles) result.now }
        ensures few { length result.now ≤ most_lines }
        ensures small { line_units result.now < 2 ^ 32 }
    {
        let number = self.orders.find(order).unwrap();
        self.orders.lines(number)
    }
}
