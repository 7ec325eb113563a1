//! Which served orders of a day go well together.
ghost use Rattle.std.specs.Prelude.{◌≡◌, IfOk, length};
ghost use Rattle.std.specs.List.{All};
ghost use Rattle.wp_waves.specs.OpenOrders.{IsOpenOrder};

use crate::filling::Sizes;
use crate::orders::SoughtOrders;
use crate::picks::ArticleRows;
use crate::proposal::propose;
use std::alloc::Global;
use wp_graph::Layout;
use wp_model::Memory;
use wp_waves::{OpenDay, OpenOrder};

/// How waves are sought: in which layout, of which sizes, and with how much effort, 0 to 1000.
#[derive(Clone, Copy)]
pub struct Seeking<'a> {
    pub layout: &'a Layout,
    pub sizes: Sizes,
    pub effort: u32,
}

// Served orders by the slots at which they would likely pick.
fn sought(
    alloc: Global,
    layout: &Layout,
    day: &OpenDay<'_>,
    served: &[OpenOrder],
) -> Result<SoughtOrders, Memory>
    requires { All (IsOpenOrder day.now.orders) served.now }
{
    let rows = ArticleRows::of(alloc, day.stock())?;
    let mut sought = SoughtOrders::new(alloc, *layout);
    for one in served {
        let slots = rows.likely_slots(alloc, layout, day.lines(&one.order))?;
        sought.add(one.rank, slots)?;
    }
    Ok(sought)
}

/// A key for each served order of a day: orders of equal keys make a wave that is short to walk. Group by group the
/// order that is served first begins a wave and its first batch; of the 40 of the least rank that share most aisles
/// with the batch the one joins that saves most; the longest order begins the next batch, until the wave is full. Then
/// orders of equal rank change places where that makes two tours shorter, and no wave begins with another order: 80
/// times an order and unit of effort this is tried. The same orders always get the same keys. An `Err` comes from a
/// want of memory alone.
pub fn keys_for(
    alloc: Global,
    day: &OpenDay<'_>,
    served: &[OpenOrder],
    seeking: &Seeking<'_>,
) -> Result<Vec<u32>, Memory>
    requires { All (IsOpenOrder day.now.orders) served.now }
    ensures { IfOk result (λ keys. length keys.items ≡ length served.now) }
{
    let sought = sought(alloc, seeking.layout, day, served)?;
    propose(alloc, served, &sought, seeking.sizes, seeking.effort)
}
