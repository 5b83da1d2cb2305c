//! What a draw gives: which vertices make a primitive, what an attribute reads, which pixels a primitive covers, what becomes
//! of a sample, and the targets and the work of a whole draw. The definitions are in `specs/`.
#![tactic(auto)]

pub mod command;
pub mod framebuffer;
mod position;

pub use command::{DrawCall, Dynamic};
pub use framebuffer::{Target, Targets};
pub use position::Position;
