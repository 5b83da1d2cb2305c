//! The text of traces, and the text that a play prints.
#![tactic(auto)]

mod adding;
mod adding_libraries;
mod adding_steps;
mod digits;
mod each;
mod fault_lines;
mod few;
mod field_cursor;
mod field_values;
mod kept_steps;
mod kept_targets;
mod library_lines;
mod line_kind;
mod made;
mod module_parts;
mod number;
mod numbers;
mod parts;
mod places;
mod print_code;
mod print_modules;
mod print_rules;
mod print_targets;
mod reading;
mod recorder_lines;
mod setup_lines;
mod taking;
mod whole;

pub use fault_lines::{fault_line, memory_line, read_line, usage_line, write_line};
pub use print_code::code_text;
pub use print_modules::check_text;
pub use print_rules::{links_text, play_text};
pub use reading::{ReadFault, read_trace};
pub use trace_model::Serve;
pub use trace_model::line_fault::{Cause, TraceFault};
pub use whole::Trace;
