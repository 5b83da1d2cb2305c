ghost use Rattle.std.specs.Prelude.{◌≡◌};
ghost use Rattle.check_model.specs.declared.fault.CheckFault.TheVariants.{Memory};

use body_model::TreeFault;
use spirv_model::WordsFault;
use std::alloc::AllocError;
use thiserror::Error;
use valid_model::TypeFault;

/// Why a module isn't valid. A place is an instruction's number, from 0. Want of memory is always `Memory`, and stands in none
/// of the faults inside.
#[derive(Clone, Copy, Debug, Drop, PartialEq, Eq, Error)]
pub enum CheckFault {
    /// Its words are no list of instructions.
    #[error("{0}")]
    Words(WordsFault),
    /// Its function isn't structured.
    #[error("{0}")]
    Tree(TreeFault),
    /// Its ids, types, constants or decorations aren't sound.
    #[error("{0}")]
    Ids(TypeFault),
    /// This id isn't visible where it is used, or it is that of a phi that doesn't name the blocks that branch to its own.
    #[error("NotVisible")]
    NotVisible(u32),
    /// The operands of the instruction at this place don't have the types that it takes.
    #[error("OperandType")]
    OperandType(u32),
    /// The instruction at this place writes what can't be written, or is a variable of a storage class that can't stand there.
    #[error("WrongStorage")]
    WrongStorage(u32),
    /// There are so many entry points and not one, or the one is of another stage or function.
    #[error("EntryCount")]
    EntryCount(u32),
    /// An input of a fragment module at this location isn't Flat.
    #[error("NotFlat")]
    NotFlat(u32),
    /// Two inputs or two outputs have this location.
    #[error("LocationTwice")]
    LocationTwice(u32),
    /// Memory ran out.
    #[error("Memory")]
    Memory,
}

impl From<AllocError> for CheckFault {
    ghost from_gives = { λ _ e. e ≡ Memory };

    fn from(_error: AllocError) -> CheckFault {
        CheckFault::Memory
    }
}
