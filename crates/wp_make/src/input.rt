ghost use Rattle.std.specs.Prelude.{◌≡◌, IfOk};
ghost use Rattle.wp_make.specs.Accepted.{AreAccepted};
ghost use Rattle.wp_make.specs.Sizes.{IsSize};
ghost use Rattle.wp_make.specs.Texts.{AreShort, made_texts, texts_of};

use crate::desks::made_desks_text;
use crate::layout::made_layout_text;
use crate::orders::made_orders_text;
use crate::stock::made_stock_text;
use std::alloc::Global;
use wp_model::Memory;

/// How large a made input is: 1 to 64 aisles of 40 slots each, 1 to 10,000 orders, 1 to 8 desks, and 1 to 64 orders in
/// a wave; at most 500 waves.
#[derive(Clone, Copy, PartialEq, Eq)]
pub struct Size {
    pub aisles: u32,
    pub orders: u32,
    pub desks: u32,
    pub wave: u32,
}

/// The texts of the four files of a day.
#[derive(Drop)]
pub struct Input {
    pub layout: Vec<u8>,
    pub stock: Vec<u8>,
    pub orders: Vec<u8>,
    pub desks: Vec<u8>,
}

/// The input of a size that is drawn from a number. In the layout the depot lies in the middle, and each slot has a row
/// on its left with 1,000,000 units of an article of its own. Each order has 1 to 3 lines, drawn one after the other.
/// The orders are cut into waves in their order; each wave is submitted and released by one desk, and the desks take
/// turns. The readers of files accept the texts, none of which is longer than a file may be. An `Err` comes from a want
/// of memory alone.
pub fn make(alloc: Global, number: u64, size: Size) -> Result<Input, Memory>
    requires { IsSize size }
    ensures texts { IfOk result (λ input. texts_of input ≡ made_texts number size) }
    ensures accepted { IfOk result (λ input. AreAccepted (texts_of input)) }
    ensures short { IfOk result (λ input. AreShort (texts_of input)) }
{
    let layout = made_layout_text(alloc, size.aisles)?;
    let stock = made_stock_text(alloc, size.aisles)?;
    let orders = made_orders_text(alloc, number, size.aisles, size.orders)?;
    let desks = made_desks_text(alloc, size)?;
    Ok(Input {
        layout,
        stock,
        orders,
        desks,
    })
}
