ghost use Rattle.std.specs.Prelude.{◌≡◌};
ghost use Rattle.trace_model.specs.declared.line_fault.Cause.TheVariants.{Memory};

use check_model::CheckFault;
use std::alloc::AllocError;
use thiserror::Error;

/// Why bytes are no trace: the first faulty line, counted from 1, and the first cause on it. Line 0 stands for the whole.
#[derive(Clone, Copy, Debug, Drop, PartialEq, Eq)]
pub struct TraceFault {
    pub line: u32,
    pub cause: Cause,
}

/// What is wrong with a line. Where several causes hold, the first in this order is told.
#[derive(Clone, Copy, Debug, Drop, PartialEq, Eq, Error)]
pub enum Cause {
    /// There are more than `TRACE_BYTES` bytes; the line is 0.
    #[error("TooLong")]
    TooLong,
    /// The first line names no version of this format.
    #[error("NoHeader")]
    NoHeader,
    /// The line has no form that the version knows, a number out of its range, or no line feed.
    #[error("BadLine")]
    BadLine,
    /// There is one object, draw or word of a target more than there may be.
    #[error("TooMany")]
    TooMany,
    /// No earlier line makes an object that it names, or a target that it binds has the wrong sort of format.
    #[error("Unknown")]
    Unknown,
    /// The words are no valid module.
    #[error("{0}")]
    BadModule(CheckFault),
    /// A library contradicts itself, or its module and its layout don't fit it.
    #[error("BadPart")]
    BadPart,
    /// It binds a target of another recorder.
    #[error("ForeignTarget")]
    ForeignTarget,
    /// Memory ran out.
    #[error("Memory")]
    Memory,
}

impl From<AllocError> for Cause {
    ghost from_gives = { λ _ e. e ≡ Memory };

    fn from(_error: AllocError) -> Cause {
        Cause::Memory
    }
}
