//! Tests of the crates that read traces, play them and print what they leave.
#![tactic(auto)]

#[cfg(test)]
mod call_tests;
#[cfg(test)]
mod print_tests;
#[cfg(test)]
mod reading_tests;
#[cfg(test)]
mod row_tests;
#[cfg(test)]
mod samples;
#[cfg(test)]
mod target_tests;
