//! The calls of the program: from the bytes of a source to the text in a sink.
#![tactic(auto)]

mod call;
mod ending;
mod links;
mod listings;
mod outcome;
mod play;
mod player;
mod read;
mod recorder;
mod state_modules;
pub mod status;
mod still;
mod take;
mod text;
mod write;

pub use outcome::{Outcome, Report};
pub use player::run;
pub use spv_text::{TextCause, TextFault};
pub use still::run_still;
pub use text::{TextOutcome, TextRunFault, text_fault_line, text_run};
pub use trace_model::Serve;
pub use trace_model::line_fault::{Cause, TraceFault};
