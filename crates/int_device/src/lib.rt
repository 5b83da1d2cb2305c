//! The device: what a draw leaves in a target.
#![tactic(auto)]

mod assembled;
mod canvas;
mod drawing;
mod fragment;
mod primitive;
mod sample_rules;
mod samples;
mod shading;
mod target_samples;
mod unit;
mod vertices;
pub mod whole_draw;

pub use crate::unit::Unit;
pub use crate::whole_draw::{draw, draw_modules};
pub use std::alloc::AllocError as Memory;
