//! The body of a module's function (SPIR-V specification, section 2.11 "Structured Control Flow"): how blocks end, which
//! sequences of blocks are structured, and why a list of instructions holds no structured function. The definitions are
//! in `specs/`.
#![tactic(auto)]

mod block_end;
mod fault;
mod scope;

pub use block_end::{BlockEnd, LoopHead, SelectionHead, SequenceEnd, SwitchHead};
pub use fault::TreeFault;
pub use scope::{End, LoopExits, Phis};
