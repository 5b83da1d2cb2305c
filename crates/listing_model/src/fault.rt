ghost use Rattle.std.specs.Prelude.{◌≡◌};
ghost use Rattle.listing_model.specs.declared.fault.TextCause.TheVariants as text;
ghost use Rattle.listing_model.specs.declared.fault.ListFault.TheVariants as list;

use spirv_model::WordsFault;
use std::alloc::AllocError;
use thiserror::Error;

/// The most bytes that a listing may have.
pub const LISTING_BYTES: usize = 16_777_216;

/// Why bytes are no listing, and the line at fault, counted from 1; 0 stands for the whole.
#[derive(Clone, Copy, Debug, Drop, PartialEq, Eq)]
pub struct TextFault {
    pub line: u32,
    pub cause: TextCause,
}

/// What is wrong with the line.
#[derive(Clone, Copy, Debug, Drop, PartialEq, Eq, Error)]
pub enum TextCause {
    /// There are more bytes than a listing may have.
    #[error("TooLong")]
    TooLong,
    /// No line feed ends the line.
    #[error("NoEnd")]
    NoEnd,
    /// The first line isn't `spvt 1` with an id bound of a module.
    #[error("NoHead")]
    NoHead,
    /// The line's name isn't that of an opcode of the list.
    #[error("NoName")]
    NoName,
    /// The line isn't that of an instruction with its name.
    #[error("BadOperands")]
    BadOperands,
    /// The words up to here are more than a module may have.
    #[error("TooManyWords")]
    TooManyWords,
    /// Memory ran out.
    #[error("Memory")]
    Memory,
}

impl From<AllocError> for TextCause {
    ghost from_gives = { λ _ e. e ≡ text.Memory };

    fn from(_error: AllocError) -> TextCause {
        TextCause::Memory
    }
}

/// Why words have no listing.
#[derive(Clone, Copy, Debug, Drop, PartialEq, Eq, Error)]
pub enum ListFault {
    /// The words are no module, for this reason.
    #[error("{0}")]
    Words(WordsFault),
    /// Memory ran out.
    #[error("Memory")]
    Memory,
}

impl From<AllocError> for ListFault {
    ghost from_gives = { λ _ e. e ≡ list.Memory };

    fn from(_error: AllocError) -> ListFault {
        ListFault::Memory
    }
}
