//! The edges of the program: where bytes come in, where they go out, and what may stand between
//! the steps of a run.
#![tactic(auto)]

mod ends;
mod firm_source;
mod gate;
mod mem_sink;
mod mem_source;
mod std_ends;

pub use ends::{Failed, Memory, Sink, Source};
pub use firm_source::FirmSource;
pub use gate::{Gate, NoGate, Spot};
pub use mem_sink::MemSink;
pub use mem_source::MemSource;
pub use std_ends::{StdSink, StdSource};

#[cfg(test)]
mod tests;
