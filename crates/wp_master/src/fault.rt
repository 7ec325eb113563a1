ghost use Rattle.std.specs.Prelude.{◌≡◌};
ghost use Rattle.wp_master.specs.declared.fault.MasterFault.TheVariants as cause;

use crate::wide::TooWide;
use wp_model::Memory;

/// Why a pool isn't solved.
#[derive(Clone, Copy, PartialEq, Eq)]
pub enum MasterFault {
    /// The least order that no column holds.
    NoCover(u32),
    /// So many pivots were made, as many as were allowed, and a further one is left to make.
    Turns { made: u64 },
    /// Two entries of a table, or twice an entry and an entry, whose product leaves an `i128`.
    Wide { left: i128, right: i128 },
    /// Memory is wanting.
    Memory,
}

impl From<Memory> for MasterFault {
    ghost from_gives = { λ _ fault. fault ≡ cause.Memory };

    fn from(_error: Memory) -> MasterFault {
        MasterFault::Memory
    }
}

impl From<TooWide> for MasterFault {
    ghost from_gives = { λ wide fault. fault ≡ cause.Wide wide.left wide.right };

    fn from(wide: TooWide) -> MasterFault {
        MasterFault::Wide {
            left: wide.left,
            right: wide.right,
        }
    }
}
