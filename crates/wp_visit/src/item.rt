ghost use Rattle.std.specs.Prelude.{◌≡◌, ◌+◌, ◌<◌, length};
ghost use Rattle.wp_visit.specs.Items.{AreBounded, AreReachesBelow, IsItemOf};

use crate::further::sum_in;
use wp_lengths::{PairedWave, is_later};
use wp_pairs::Batch;

/// What an order brings to a place: the orders that are joined to it and those that are parted from it. It is usable
/// where it names an item that is a permitted batch; then it has the number of its orders, how many units they load,
/// and what they have in duals. Where there is no cart, they load nothing. By the number of further orders, up to the
/// capacity, it has the most that orders of later items have in duals.
#[derive(Clone, Copy)]
pub struct Item {
    pub usable: bool,
    pub class: Batch,
    pub parted: Batch,
    pub size: u32,
    pub load: u64,
    pub sum: u64,
    pub reach: [u64; 9],
}

/// A wave with pairs, and a dual for each order: 0 to 2 ^ 57, in any unit.
#[derive(Clone, Copy)]
pub struct Given<'a> {
    pub paired: PairedWave<'a>,
    pub duals: &'a [u64],
    pub ghost count: { length duals.now ≡ paired.pairs.now.orders },
    pub ghost bounded: { AreBounded duals.now },
}

/// What an order brings to a place, with the reaches of the items after it.
pub fn item_of(given: &Given<'_>, order: u32, reach: &[u64; 9]) -> Item
    requires known { order < given.now.paired.pairs.now.orders }
    requires reaches { AreReachesBelow given.now.paired.pairs.now given.now.duals.now (order + 1)
        (given.now.paired.pairs.now.capacity + 1) reach.now }
    ensures { IsItemOf given.now.paired.pairs.now given.now.duals.now order result }
{
    let pairs = given.paired.pairs;
    let class = pairs.joined_to(order);
    let size = class.len();
    let parted = pairs.parted_from(order);
    let reach = *reach;
    if !is_later(pairs, order, order) || !pairs.permits(class) {
        return Item {
            usable: false,
            class,
            parted,
            size,
            load: 0,
            sum: 0,
            reach,
        };
    }
    Item {
        usable: true,
        class,
        parted,
        size,
        load: pairs.load_of(class),
        sum: sum_in(given, class),
        reach,
    }
}
