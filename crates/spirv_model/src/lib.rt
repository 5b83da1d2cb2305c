//! SPIR-V modules as data: the word stream, the instructions that it holds, and the table of opcodes, as definitions.
#![tactic(auto)]

pub mod builtin;
pub mod class;
pub mod decoration;
pub mod execution_model;
mod module;
pub mod op;
pub mod storage_class;
pub mod table;

pub use module::{HEADER_WORDS, Inst, MAGIC, OPERAND_WORDS_LIMIT, VERSION, Words, WordsFault};
pub use sqlite_items::Items;
