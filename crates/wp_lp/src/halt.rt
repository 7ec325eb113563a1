ghost use Rattle.std.specs.Prelude.{◌≡◌};
ghost use Rattle.wp_lp.specs.Rounds.{IsHaltOf};
ghost use Rattle.wp_lp.specs.declared.halt.Halt.TheVariants as halt;

use crate::root::RootState;
use wp_master::MasterFault;
use wp_model::Memory;

/// Why a search ends without a narrow bracket.
#[derive(Clone, Copy)]
pub enum Halt {
    /// Memory is wanting.
    Memory,
    /// No batch of the pool has this order, and this is the least. The pools of a search have each order in some batch.
    NoCover(u32),
    /// The state with which it ends.
    Ended(RootState),
}

impl From<Memory> for Halt {
    ghost from_gives = { λ _ answer. answer ≡ halt.Memory };

    fn from(_error: Memory) -> Halt {
        Halt::Memory
    }
}

impl From<MasterFault> for Halt {
    ghost from_gives = { λ fault answer. IsHaltOf fault answer };

    fn from(fault: MasterFault) -> Halt {
        match fault {
            MasterFault::Turns { made } => Halt::Ended(RootState::Turns { made }),
            MasterFault::Wide { left, right } => Halt::Ended(RootState::Wide { left, right }),
            MasterFault::NoCover(order) => Halt::NoCover(order),
            MasterFault::Memory => Halt::Memory,
        }
    }
}
