//! Modules that the crates of tests share: samples as instructions and as words, compiled shaders, and what makes further ones.
#![tactic(auto)]

pub mod frame;
pub mod sample_words;
pub mod samples;
pub mod shader_words;
