ghost use Rattle.std.specs.Prelude.{◌≡◌, ◌<◌, ◌^◌, length, IfOk, IfErr};
ghost use Rattle.basics.specs.Answer.{UnlessMemory};
ghost use Rattle.body_model.specs.declared.fault.TreeFault.{TreeFault};
ghost use Rattle.body_model.specs.declared.fault.TreeFault.TheVariants.{Memory};
ghost use Rattle.body_model.specs.Grammar.{Derives};
ghost use Rattle.body_model.specs.Faults.{HasFault};
ghost use Rattle.spv_tree.specs.Answers.{is_memory};
ghost use Rattle.spv_tree.specs.Trees.{IsTreeOf};
ghost use Rattle.spv_tree.specs.Parts.{FindsFunction, FindsEnd};

use crate::barred::switch_targets;
use crate::block::is_module_level;
use crate::labels::repeated_labels;
use crate::scope;
use crate::sequence::{Tables, sequence};
use crate::tree::Body;
use body_model::TreeFault;
use spirv_model::{Inst, op};
use std::alloc::Global;

/// The body of a module's function as a tree (SPIR-V specification, section 2.11 "Structured Control Flow").
/// A fault has the first place at which the instructions are no module with one structured function.
pub fn tree_of(alloc: Global, insts: &[Inst]) -> Result<Body, TreeFault>
    requires { length insts.now < 2 ^ 32 }
    ensures derived { IfOk result (λ body. IsTreeOf insts.now body) }
    ensures fault { UnlessMemory is_memory (λ body. Derives insts.now) (HasFault insts.now) result }
    ensures exact { Derives insts.now → IfErr result (λ fault. fault ≡ Memory) }
    ensures only { (fault : TreeFault) → HasFault insts.now fault
        → UnlessMemory is_memory (λ body. ⊥) (λ answer. answer ≡ fault) result }
{
    let first = function(insts)?;
    let repeated = repeated_labels(alloc, insts)?;
    let targets = switch_targets(alloc, insts)?;
    let tables = Tables { repeated, targets };
    let read = sequence(alloc, insts, &tables, &[], scope::main(), None, first + 1)?;
    closed(insts, read.place)?;
    Ok(Body { run: read.run })
}

/// The place of OpFunction, with nothing but the module's level before it.
fn function(insts: &[Inst]) -> Result<u32, TreeFault>
    requires { length insts.now < 2 ^ 32 }
    ensures { FindsFunction insts.now result }
{
    let mut place = 0;
    for inst in insts {
        if inst.op == op::FUNCTION {
            return Ok(place);
        }
        if !is_module_level(inst.op) {
            return Err(TreeFault::BadBlock(place));
        }
        place += 1;
    }
    Err(TreeFault::BadBlock(place))
}

/// OpFunctionEnd stands at the place, and nothing behind it.
fn closed(insts: &[Inst], place: u32) -> Result<(), TreeFault>
    requires { length insts.now < 2 ^ 32 }
    ensures { FindsEnd insts.now place result }
{
    let at = place as usize;
    if at >= insts.len() {
        return Err(TreeFault::BadBlock(place));
    }
    if insts[at].op != op::FUNCTION_END {
        return Err(TreeFault::BadBlock(place));
    }
    if at + 1 < insts.len() {
        return Err(TreeFault::BadBlock(place + 1));
    }
    Ok(())
}
