//! Tests of the crates that change modules.
#![tactic(auto)]

#[cfg(test)]
mod small_modules;
#[cfg(test)]
mod specialised;
#[cfg(test)]
mod specialising;
#[cfg(test)]
mod tests;
