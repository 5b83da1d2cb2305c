ghost use Rattle.std.specs.Prelude.{◌≡◌};
ghost use Rattle.spirv_model.specs.Operands.{word_at, words_from};
ghost use Rattle.spirv_model.specs.declared.module.WordsFault.TheVariants.{Memory};

use sqlite_items::Items;
use std::alloc::AllocError;
use thiserror::Error;

/// The first word of a module (SPIR-V specification, section 2.3 "Physical Layout of a SPIR-V Module and Instruction").
pub const MAGIC: u32 = 0x0723_0203;

/// The words of the header: magic, version, generator, bound and schema.
pub const HEADER_WORDS: usize = 5;

/// The most words that an instruction may have after its first, since its word count has 16 bits.
pub const OPERAND_WORDS_LIMIT: usize = 65_534;

/// The version of a module that is written: 1.0.
pub const VERSION: u32 = 0x0001_0000;

/// One instruction: its opcode, and its words after the first.
#[derive(Debug, Drop)]
pub struct Inst {
    pub op: u16,
    pub words: Items<u32>,
}

impl Inst {
    /// The word at a place behind the first word, or 0 past the end.
    pub fn word(&self, place: usize) -> u32
        ensures { result ≡ word_at place self.now }
    {
        self.words.as_slice().get(place).copied().unwrap_or(0)
    }

    /// The words from a place behind the first word on.
    pub fn words_from(&self, place: usize) -> &[u32]
        ensures { result.now ≡ words_from place self.now }
    {
        let words = self.words.as_slice();
        let (_, after) = words.split_at(words.len().min(place));
        after
    }
}

/// The instructions of a module in their order, and its id bound.
#[derive(Debug, Drop)]
pub struct Words {
    pub bound: u32,
    pub insts: Items<Inst>,
}

/// Why words are no list of instructions.
#[derive(Clone, Copy, Debug, Drop, PartialEq, Eq, Error)]
pub enum WordsFault {
    /// The first five words are no header of a module that is read here, or there are too many words.
    #[error("BadHeader")]
    BadHeader,
    /// An instruction's word count is 0.
    #[error("ZeroLength")]
    ZeroLength,
    /// An instruction's word count goes past the last word.
    #[error("CutShort")]
    CutShort,
    /// An instruction's opcode, which is here, isn't known.
    #[error("UnknownOp")]
    UnknownOp(u16),
    /// An instruction's words don't fit the operands of its opcode. Its place is counted from 0 among the instructions
    /// that aren't skipped.
    #[error("BadShape")]
    BadShape(u32),
    /// An instruction is OpTypeFloat.
    #[error("FloatType")]
    FloatType,
    /// Memory ran out.
    #[error("Memory")]
    Memory,
}

impl From<AllocError> for WordsFault {
    ghost from_gives = { λ _ e. e ≡ Memory };

    fn from(_error: AllocError) -> WordsFault {
        WordsFault::Memory
    }
}
