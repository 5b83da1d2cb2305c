ghost use Rattle.std.specs.Prelude.{◌≡◌};
ghost use Rattle.valid_model.specs.declared.type_fault.TypeFault.TheVariants.{Memory};

use std::alloc::AllocError;
use thiserror::Error;

/// Why ids, types and constants aren't sound. A place is an instruction's number, from 0.
#[derive(Clone, Copy, Debug, Drop, PartialEq, Eq, Error)]
pub enum TypeFault {
    /// This id is the result of an instruction and of an earlier one.
    #[error("IdTwice")]
    IdTwice(u32),
    /// An id of the instruction at this place is 0 or isn't below the bound.
    #[error("IdOutOfBound")]
    IdOutOfBound(u32),
    /// The instruction at this place declares a type, a variable or a function that isn't allowed, or its result type is
    /// defined later.
    #[error("BadType")]
    BadType(u32),
    /// The type and the parts of the constant at this place don't fit.
    #[error("BadConstant")]
    BadConstant(u32),
    /// The decorations of the instruction at this place, or the decoration itself, aren't allowed.
    #[error("BadDecoration")]
    BadDecoration(u32),
    /// Memory ran out.
    #[error("Memory")]
    Memory,
}

impl From<AllocError> for TypeFault {
    ghost from_gives = { λ _ e. e ≡ Memory };

    fn from(_error: AllocError) -> TypeFault {
        TypeFault::Memory
    }
}
