ghost use Rattle.std.specs.Prelude.{◌≡◌};
ghost use Rattle.body_model.specs.declared.fault.TreeFault.TheVariants.{Memory};

use std::alloc::AllocError;
use thiserror::Error;

/// Why instructions are no module with one structured function, and at which place.
#[derive(Clone, Copy, Debug, Drop, PartialEq, Eq, Error)]
pub enum TreeFault {
    /// No block, or no part of a block, may stand there.
    #[error("BadBlock")]
    BadBlock(u32),
    /// A selection, an OpSwitch or a loop isn't laid out as its merge instruction says, or one is wanted or not allowed
    /// there.
    #[error("BadMerge")]
    BadMerge(u32),
    /// A sequence may not be left this way.
    #[error("BadExit")]
    BadExit(u32),
    /// Too many selections, OpSwitches and loops are open.
    #[error("TooDeep")]
    TooDeep(u32),
    /// Memory ran out.
    #[error("Memory")]
    Memory,
}

impl From<AllocError> for TreeFault {
    ghost from_gives = { λ _ e. e ≡ Memory };

    fn from(_error: AllocError) -> TreeFault {
        TreeFault::Memory
    }
}
