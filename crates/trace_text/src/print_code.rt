//! The text of a trace's line that gives a module.
ghost use Rattle.std.specs.Prelude.{◌≡◌, IfOk};
ghost use Rattle.trace_model.specs.CodeText as spec;

use crate::digits::push_words;
use std::alloc::{AllocError, Global};

/// The line `code` with these words.
#[tactic(auto, unfolding(trace_model::specs::CodeText::code_text))]
pub fn code_text(alloc: Global, words: &[u32]) -> Result<Vec<u8>, AllocError>
    ensures { IfOk result (λ text. text.items ≡ spec.code_text words.now) }
{
    let mut text = Vec::new(alloc);
    text.extend_from_slice(b"code")?;
    push_words(&mut text, words)?;
    text.push(b'\n')?;
    Ok(text)
}
