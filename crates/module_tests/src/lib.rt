//! Tests of the crates that read, check, run and list modules, and of whole modules through all of them.
#![tactic(auto)]

#[cfg(test)]
mod bad_modules;
#[cfg(test)]
mod decoration_tests;
#[cfg(test)]
mod faulty_bodies;
#[cfg(test)]
mod id_tests;
#[cfg(test)]
mod operand_tests;
#[cfg(test)]
mod operation_tests;
#[cfg(test)]
mod outcomes;
#[cfg(test)]
mod refused_modules;
#[cfg(test)]
mod shader_runs;
#[cfg(test)]
mod shaders;
#[cfg(test)]
mod stage_runs;
#[cfg(test)]
mod tests;
#[cfg(test)]
mod text_tests;
#[cfg(test)]
mod tree_tests;
#[cfg(test)]
mod valid_modules;
#[cfg(test)]
mod word_tests;
