//! Records as they are read.
ghost use Rattle.std.specs.Prelude.{◌≡◌, List, ℕ, Option, IfOk};
ghost use Rattle.spirv_model.specs.declared.module.Words.{Words};
ghost use Rattle.check_model.specs.declared.fault.CheckFault.TheVariants as fault;
ghost use Rattle.check_model.specs.Validity.{IsValidList};
ghost use Rattle.unit_model.specs.Fits.{record_of, words_of};
ghost use Rattle.unit_records.specs.Records.{IsRecord, HasModules, AreOfModule};

use crate::{Memory, Module};
use check_model::CheckFault;
use spv_check::check;
use std::alloc::Global;

/// A vertex module, and a fragment module, if there is one.
#[derive(Drop)]
pub struct Unit {
    pub vs: Module,
    pub fs: Option<Module>,
}

/// The modules that the words are a record of.
pub fn unit_of_record(alloc: Global, words: &[u32]) -> Result<Unit, Memory>
    requires { HasModules words.now }
    ensures { (vs : Words) (fs : Option Words) → IsRecord words.now vs fs
        → IfOk result (λ unit. (unit.vs ≡ vs) × (unit.fs ≡ fs)) }
{
    let (vs, fs) = parts(words);
    let vs = module_of(alloc, vs)?;
    let fs = if fs.is_empty() {
        None
    } else {
        Some(module_of(alloc, fs)?)
    };
    Ok(Unit { vs, fs })
}

/// The words of the two modules of a record.
fn parts(words: &[u32]) -> (&[u32], &[u32])
    requires { HasModules words.now }
    ensures { (vs fs : List ℕ) → words.now ≡ record_of vs fs
        → (result.0.now ≡ vs) × (result.1.now ≡ fs) }
{
    let (counts, modules) = words.split_at(2);
    modules.split_at(counts[0] as usize)
}

/// The valid module whose words these are.
fn module_of(alloc: Global, words: &[u32]) -> Result<Module, Memory>
    requires { AreOfModule words.now }
    ensures { (own : Words) → IsValidList own → words.now ≡ words_of own
        → IfOk result (λ made. made ≡ own) }
{
    match check(alloc, words) {
        Ok(module) => Ok(module),
        Err(fault) => Err(want_of_memory(fault)),
    }
}

/// The one fault that the words of a valid module have.
fn want_of_memory(_fault: CheckFault) -> Memory
    requires { _fault ≡ fault.Memory }
{
    Memory
}
