ghost use Rattle.std.specs.Prelude.{◌≡◌};
ghost use Rattle.wp_model.specs.Tables.{AreReadOrders, IsCart, IsReadOpening};
ghost use Rattle.wp_floor.specs.Opening.{cart_opening, opening_of};

use std::marker::Model;
use wp_tables::{Orders, Stock};

/// What a machine begins with: the stock, the orders that were read for it, and how many units a cart holds, 1 to
/// 40,000,000, or none where carts hold any number.
#[derive(Drop)]
pub struct Opening {
    stock: Stock,
    orders: Orders,
    units: Option<u32>,
}

impl Model for Opening {
    ghost use Rattle.wp_model.specs.Opening as opening;

    ghost Value = { opening.Opening };

    ghost use Rattle.wp_model.specs.Tables.{IsReadOpening};

    ghost view = { λ o. record { stock = o.stock; orders = o.orders; units = o.units } };

    ghost invariant = { λ o. IsReadOpening (record { stock = o.stock; orders = o.orders; units = o.units }) };
}

impl Opening {
    /// The opening of a stock and of orders that were read for it, for carts that hold any number of units.
    pub fn of(stock: Stock, orders: Orders) -> Opening
        requires { AreReadOrders stock.articles orders }
        ensures { result ≡ opening_of stock orders }
    {
        let _rows = stock.as_rows();
        Opening {
            stock,
            orders,
            units: None,
        }
    }

    /// The opening of a stock and of orders that were read for it, for carts that hold so many units, 1 to 40,000,000.
    pub fn with_cart(stock: Stock, orders: Orders, units: u32) -> Opening
        requires orders { AreReadOrders stock.articles orders }
        requires units { IsCart units }
        ensures { result ≡ cart_opening stock orders units }
    {
        let _rows = stock.as_rows();
        Opening {
            stock,
            orders,
            units: Some(units),
        }
    }

    /// The stock.
    pub fn stock(&self) -> &Stock
        ensures stock { result.now ≡ self.now.stock }
        ensures read { IsReadOpening self.now }
    {
        &self.stock
    }

    /// The orders.
    pub fn orders(&self) -> &Orders
        ensures { result.now ≡ self.now.orders }
    {
        &self.orders
    }

    /// How many units a cart holds. None comes exactly where carts hold any number, as in an opening that `of` made.
    pub fn units(&self) -> Option<u32>
        ensures { result ≡ self.now.units }
    {
        self.units
    }
}
