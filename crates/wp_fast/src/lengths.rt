ghost use Rattle.std.specs.Prelude.{◌≡◌, ◌+◌, ◌*◌, ◌≤◌, ◌^◌, min, Some, None, IfSome};
ghost use Rattle.wp_classes.specs.Least.{lesser, sum_of};
ghost use Rattle.wp_classes.specs.declared.class.Class.TheVariants.{UU1, E01, ZE1, EE1, EE2, Z00};
ghost use Rattle.wp_fast.specs.Lengths.{AreShort, AreWays, HaveLeast, along_run, by_some_way, ends, on_from};

use wp_graph::AisleWays;

/// For each class in which a tour can be between two needed aisles, a least length on from it to the end of a whole
/// tour.
#[derive(Clone, Copy)]
pub(crate) struct NeededLengths {
    pub uu1: u64,
    pub e01: u64,
    pub ze1: u64,
    pub ee1: u64,
    pub ee2: u64,
}

/// The least lengths on from the classes to which the five ways through a needed aisle lead.
#[derive(Clone, Copy)]
struct On {
    pass: u64,
    back: u64,
    front: u64,
    gap: u64,
    double: u64,
}

/// What stands for a way that doesn't apply: it is longer than every way, and on.
const NO_WAY: u64 = 1 << 42;

// By a way, where it applies, or no longer than this.
#[inline(always)]
fn or_by(way: Option<u64>, on: u64, least: u64) -> u64
    requires way { IfSome way (λ t. t ≤ 2 ^ 40) }
    requires on { on ≤ 2 ^ 40 }
    ensures value { Some result ≡ lesser (sum_of way (Some on)) (Some least) }
    ensures within { result ≤ least }
{
    match way {
        Some(length) => (length + on).min(least),
        None => least,
    }
}

// The least length by a way through a needed aisle, and on.
#[inline(always)]
fn least_through(ways: &AisleWays, on: On) -> u64
    requires ways { AreWays ways.now }
    requires pass { on.pass ≤ 2 ^ 40 }
    requires back { on.back ≤ 2 ^ 40 }
    requires front { on.front ≤ 2 ^ 40 }
    requires gap { on.gap ≤ 2 ^ 40 }
    requires double { on.double ≤ 2 ^ 40 }
    ensures { Some result ≡ lesser (Some (ways.now.pass + on.pass))
        (lesser (sum_of ways.now.back (Some on.back)) (lesser
        (sum_of ways.now.front (Some on.front)) (lesser (sum_of ways.now.gap (Some on.gap))
        (Some (ways.now.double + on.double))))) }
{
    let twice = ways.double + on.double;
    let left_out = or_by(ways.gap, on.gap, twice);
    let from_front = or_by(ways.front, on.front, left_out);
    let from_back = or_by(ways.back, on.back, from_front);
    (ways.pass + on.pass).min(from_back)
}

/// The least lengths on from before the way through the last needed aisle.
pub(crate) fn before_last(ways: &AisleWays) -> NeededLengths
    requires { AreWays ways.now }
    ensures { HaveLeast ways.now ends result }
{
    NeededLengths {
        uu1: ways.pass,
        e01: or_by(ways.back, 0, ways.double),
        ze1: or_by(ways.front, 0, ways.double),
        ee1: or_by(
            ways.back,
            0,
            or_by(ways.front, 0, or_by(ways.gap, 0, ways.double)),
        ),
        ee2: ways.double,
    }
}

/// The length of a shortest tour through one needed aisle.
pub(crate) fn only_length(ways: &AisleWays) -> u64
    requires { AreWays ways.now }
    ensures { Some result ≡ by_some_way ways.now ends Z00 }
{
    or_by(ways.back, 0, or_by(ways.front, 0, ways.double))
}

/// The least lengths on from before the way through a needed aisle, from those on from after it. What several classes
/// have in common is found once.
pub(crate) fn before_way(ways: &AisleWays, after: &NeededLengths) -> NeededLengths
    requires ways { AreWays ways.now }
    requires after { AreShort after.now }
    ensures { HaveLeast ways.now (on_from after.now) result }
{
    let back = ways.back.unwrap_or(NO_WAY);
    let front = ways.front.unwrap_or(NO_WAY);
    let gap = ways.gap.unwrap_or(NO_WAY);
    let inside = back.min(front).min(gap);
    let odd = ways.pass + after.uu1;
    let joined = ways.double + after.ee1;
    NeededLengths {
        uu1: (ways.pass + after.ee1).min(inside.min(ways.double) + after.uu1),
        e01: odd
            .min(back + after.e01)
            .min(front.min(gap) + after.ee2)
            .min(joined),
        ze1: odd
            .min(front + after.ze1)
            .min(back.min(gap) + after.ee2)
            .min(joined),
        ee1: odd.min(inside + after.ee1).min(joined),
        ee2: odd.min(inside + after.ee2).min(joined),
    }
}

/// The least length by the way through the first needed aisle, and on.
pub(crate) fn first_length(ways: &AisleWays, after: &NeededLengths) -> u64
    requires ways { AreWays ways.now }
    requires after { AreShort after.now }
    ensures { Some result ≡ by_some_way ways.now (on_from after.now) Z00 }
{
    least_through(ways, after.from_nothing())
}

impl NeededLengths {
    // On after each way in class 000.
    #[inline(always)]
    fn from_nothing(&self) -> On
        ensures { result ≡ record {
          pass = self.now.uu1;
          back = self.now.e01;
          front = self.now.ze1;
          gap
              = self.now.ee2;
          double = self.now.ee1;
        } }
    {
        On {
            pass: self.uu1,
            back: self.e01,
            front: self.ze1,
            gap: self.ee2,
            double: self.ee1,
        }
    }

    /// The least lengths on from after the way through a needed aisle, from those on from before the way through the
    /// next one behind it, where the crossings between are so long together.
    pub(crate) fn along(&self, span: u64) -> NeededLengths
        requires lengths { AreShort self.now }
        requires span { span ≤ 2 ^ 30 }
        ensures { result ≡ along_run span self.now }
    {
        let behind = 2 * span + self.e01;
        let in_front = 2 * span + self.ze1;
        NeededLengths {
            uu1: 2 * span + self.uu1,
            e01: behind,
            ze1: in_front,
            ee1: behind.min(in_front).min(4 * span + self.ee1),
            ee2: 4 * span + self.ee2,
        }
    }
}
