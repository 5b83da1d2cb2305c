//! Tests of the states of pipelines, their keys, the four libraries and their links.
#![tactic(auto)]

#[cfg(test)]
mod key_tests;
#[cfg(test)]
mod library_tests;
#[cfg(test)]
mod link_tests;
#[cfg(test)]
mod parts;
