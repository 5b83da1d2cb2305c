//! Modules that are known to be valid, and copies.
ghost use Rattle.std.specs.Prelude.{◌≡◌, IfOk};
ghost use Rattle.check_model.specs.declared.fault.CheckFault.TheVariants.{Memory};
ghost use Rattle.check_model.specs.Validity.{IsValidList};

use crate::checks::check_list;
use crate::module::Module;
use check_model::CheckFault;
use spirv_model::{Inst, Items, Words};
use std::alloc::{AllocError, Global};

/// The module of instructions and a bound that are known to be valid, so that only want of memory is an error.
pub fn valid_module(alloc: Global, words: Words) -> Result<Module, AllocError>
    requires { IsValidList words }
    ensures { IfOk result (λ made. made ≡ words) }
{
    match check_list(alloc, words) {
        Ok(module) => Ok(module),
        Err(fault) => Err(want_of_memory(fault)),
    }
}

impl Module {
    /// An equal module.
    pub fn copy(&self, alloc: Global) -> Result<Module, AllocError>
        ensures { IfOk result (λ copy. copy ≡ self.now) }
    {
        let insts = copies(alloc, self.insts())?;
        let bound = self.bound();
        valid_module(alloc, Words { bound, insts })
    }
}

/// The one fault that a valid module has.
fn want_of_memory(_fault: CheckFault) -> AllocError
    requires { _fault ≡ Memory }
{
    AllocError
}

fn copies(alloc: Global, insts: &[Inst]) -> Result<Items<Inst>, AllocError>
    ensures { IfOk result (λ list. list ≡ insts.now) }
{
    let mut list = Items::new(alloc);
    for inst in insts {
        let words = Items::from_slice(alloc, inst.words.as_slice())?;
        list.push(Inst { op: inst.op, words })?;
    }
    Ok(list)
}
