//! The instances of a pipeline manager: a shared map to which one thread adds rows, another one adds code, and which
//! others read without a lock.
#![tactic(auto)]

mod closed;
mod creator;
mod layout;
mod looks;
mod pass;
mod publisher;
mod rows;
mod rule;
mod setup;
mod table;
mod units;
mod view;

pub use closed::{CloseParts, Closed, close};
pub use creator::{Created, Creator};
pub use limits::KEY_WORDS;
pub use pass::{Address, Find, Pass};
pub use publisher::{Published, Publisher};
pub use setup::Fit;
pub use table::Table;

// The number of buckets.
const BUCKETS: usize = 256;
