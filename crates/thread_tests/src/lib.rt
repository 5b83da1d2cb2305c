//! Tests of the crates that threads share: the instances and the workers.
#![tactic(auto)]

#[cfg(test)]
mod instance_tests;
#[cfg(test)]
mod worker_tests;
