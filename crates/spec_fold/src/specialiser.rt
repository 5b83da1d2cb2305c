//! Specializing a module (SPIR-V specification, section 2.12 "Specialization").
ghost use Rattle.std.specs.Prelude.{◌≡◌, true, IfOk};
ghost use Rattle.change_model.specs.Specialised.{IsSpecialised};
ghost use Rattle.spec_fold.specs.Rounds.{IsStraightened, changed_by};
ghost use Rattle.spec_fold.specs.Walks.{IsPassOf, plan_in};

use crate::pass::found_in;
use crate::settle::settled;
use crate::walk::Walk;
use spirv_model::Words;
use spv_check::{Module, valid_module};
use spv_rewrite::rewrite;
use state_model::SpecValues;
use std::alloc::{AllocError, Global};

/// The module in which all is carried out that is known before it runs, where these are the values of its specialization
/// constants, and its inputs at the locations in `zeros` hold zeros: it does the same whatever entries it is given.
///
/// Specialization constants of all kinds become constants and lose their numbers, an operation on constants becomes its
/// value, and a load from an input at one of the locations the null of its type. A selection or an OpSwitch on a constant
/// keeps one way, a loop whose condition is a constant that leaves it is left, and what control never comes to goes; a phi
/// of which one pair is left goes where its value may stand for it. A loop that may run stays, whatever it does. An OpSwitch
/// without literals stays where its arm is left from within, since there is no other way to write that.
///
/// The time is linear in the words of the module for each pass; there is one pass more than there are links in the longest
/// chain of loops each of which is known to be left only by what another one left. The one error is want of memory.
pub fn specialise(
    alloc: Global,
    of: &Module,
    values: &SpecValues,
    zeros: &[u32],
) -> Result<Module, AllocError>
    ensures { IfOk result (λ new. IsSpecialised zeros.now values.now new of.now) }
{
    let insts = settled(alloc, of, values)?;
    let bound = of.bound();
    let first = valid_module(alloc, Words { bound, insts })?;
    straightened(alloc, first, zeros)
}

/// The module behind the last pass.
fn straightened(alloc: Global, first: Module, zeros: &[u32]) -> Result<Module, AllocError>
    ensures { IfOk result (λ new. IsStraightened zeros.now new first) }
{
    let mut now = first;
    loop {
        let walk = found_in(alloc, &now, zeros)?;
        if !walk.changes {
            return Ok(now);
        }
        now = changed_by(alloc, &now, zeros, &walk)?;
    }
}

/// The module that the plan of a pass makes.
fn changed_by(alloc: Global, of: &Module, zeros: &[u32], walk: &Walk) -> Result<Module, AllocError>
    requires { IsPassOf of.now zeros.now walk.now }
    ensures { IfOk result (λ new. new ≡ changed_by (plan_in walk.now) of.now) }
{
    let insts = rewrite(alloc, of, walk.fates.as_slice(), walk.names.as_slice())?;
    let bound = of.bound();
    valid_module(alloc, Words { bound, insts })
}
