//! Records as they are written.
ghost use Rattle.std.specs.Prelude.{◌≡◌, ◌<◌, ◌^◌, length, IfOk};
ghost use Rattle.unit_model.specs.Fits.{FitsLibrary, record_of, words_of};

use crate::{Memory, Module};
use spv_words::write_module;
use std::alloc::Global;

/// The record of a library's module, which stands alone.
pub fn library_record(alloc: Global, own: &Module) -> Result<Vec<u32>, Memory>
    ensures { IfOk result (λ words. FitsLibrary own.now words.items) }
{
    let words = module_words(alloc, own)?;
    record_of(alloc, words.as_slice(), &[])
}

/// The words of a module.
fn module_words(alloc: Global, own: &Module) -> Result<Vec<u32>, Memory>
    ensures are { IfOk result (λ words. words.items ≡ words_of own.now) }
    ensures few { IfOk result (λ words. length words.items < 2 ^ 32) }
{
    write_module(alloc, own.insts(), own.bound())
}

/// The record of the words of two modules.
fn record_of(alloc: Global, vs: &[u32], fs: &[u32]) -> Result<Vec<u32>, Memory>
    requires vertex { length vs.now < 2 ^ 32 }
    requires fragment { length fs.now < 2 ^ 32 }
    ensures { IfOk result (λ words. words.items ≡ record_of vs.now fs.now) }
{
    let mut words = Vec::from_slice(alloc, &[vs.len() as u32, fs.len() as u32])?;
    words.extend_from_slice(vs)?;
    words.extend_from_slice(fs)?;
    Ok(words)
}
