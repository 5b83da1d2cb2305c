//! The word stream of a SPIR-V module: reading it, writing it, and what its instructions' words are by the table of
//! opcodes.
#![tactic(auto)]

mod operands;
mod read;
mod table;
mod write;

pub use operands::{OperandIds, fit, ids, ids_are_below, result};
pub use read::read_module;
pub use spirv_model::table::{Entry, Operands};
pub use spirv_model::{Inst, Items, Words, WordsFault};
pub use std::alloc::AllocError as Memory;
pub use table::{class_of, class_of_operand, entry_of};
pub use write::write_module;
