//! Jobs of three priorities for any number of workers, which take each job once, in the order of
//! the priorities, and stop once the queues are closed and empty.
#![tactic(auto)]

mod closed_word;
mod creation;
mod job_queue;
mod low_queue;
mod passes;
mod plain_queue;
mod taking;
mod workers;

pub use creation::Queues;
pub use passes::{LowPush, WorkerPass};
pub use std::alloc::AllocError as Memory;
pub use taking::{Numbered, Pops, Priority, Taken, take_from};
pub use workers::{QueueName, Workers};
