//! The structured body of a function: a tree over its flat list of instructions.
#![tactic(auto)]

mod barred;
mod block;
mod cases;
mod flat;
mod labels;
mod scope;
mod sequence;
mod structure;
mod tree;

pub use body_model::{End, TreeFault};
pub use flat::flatten;
pub use spirv_model::{Inst, Items};
pub use sqlite_items::Boxed;
pub use std::alloc::AllocError as Memory;
pub use structure::tree_of;
pub use tree::{Block, Body, Choice, Node, Pick, PickCase, Round, Run};
