//! The check of a module: of its words, then of its instructions and its bound.
ghost use Rattle.std.specs.Prelude.{◌≡◌, ◌<◌, ◌^◌, length, Ok, IfOk, IfErr};
ghost use Rattle.basics.specs.Answer.{UnlessMemory};
ghost use Rattle.spirv_model.specs.declared.module.Words as declared;
ghost use Rattle.spirv_model.specs.Module.{module_of, IsWritable};
ghost use Rattle.body_model.specs.Grammar.{Derives};
ghost use Rattle.check_model.specs.declared.fault.CheckFault as fault;
ghost use Rattle.check_model.specs.declared.fault.CheckFault.TheVariants.{Memory};
ghost use Rattle.check_model.specs.Intervals.{intervals_of};
ghost use Rattle.check_model.specs.Validity.{HasListFault, HasModuleFault, IsValid, IsValidList, is_memory};
ghost use Rattle.spv_tree.specs.Trees.{IsTreeOf};
ghost use Rattle.spv_types.specs.Answers.{AreIdsOf};
ghost use Rattle.spv_check.specs.Faults as faults;
ghost use Rattle.spv_check.specs.Modules.{IsMadeOf};
ghost use Rattle.spv_check.specs.Uses.{AreHidden};

use crate::entry_points::is_vertex;
use crate::hidden_ids::hidden_ids;
use crate::list_faults::list_fault;
use crate::module::{Module, module_with};
use crate::spec_ids::spec_ids;
use body_model::TreeFault;
use check_model::CheckFault;
use spirv_model::{Words, WordsFault};
use spv_tree::{Body, tree_of};
use spv_types::{Ids, TypeFault, ids_of};
use spv_words::read_module;
use std::alloc::Global;

/// The module of these words, in the byte order of this machine (SPIR-V specification, sections 2.3 "Physical Layout of a
/// SPIR-V Module and Instruction" and 2.16 "Validation Rules"). Words that are no valid module are refused with their first
/// fault: that of the words, else of the function, of the ids, of the entry points, of the uses at the lowest place, and of
/// the interface.
pub fn check(alloc: Global, words: &[u32]) -> Result<Module, CheckFault>
    ensures fault { UnlessMemory is_memory (IsValid words.now) (HasModuleFault words.now) result }
    ensures exact { (read : declared.Words) → IsValid words.now read
        → IfErr result (λ fault. fault ≡ Memory) }
    ensures only { (fault : fault.CheckFault) → HasModuleFault words.now fault
        → UnlessMemory is_memory (λ made. ⊥) (λ answer. answer ≡ fault) result }
{
    words_checked(alloc, words)
}

/// The module of instructions and a bound that can be written as words: the operands of each instruction are those of its
/// opcode, and the words are few enough. Those that are no valid module are refused with their first fault.
pub fn check_list(alloc: Global, words: Words) -> Result<Module, CheckFault>
    requires { IsWritable words }
    ensures fault { UnlessMemory is_memory (IsMadeOf words) (HasListFault words) result }
    ensures exact { IsValidList words → IfErr result (λ fault. fault ≡ Memory) }
    ensures only { (fault : fault.CheckFault) → HasListFault words fault
        → UnlessMemory is_memory (λ made. ⊥) (λ answer. answer ≡ fault) result }
{
    list_checked(alloc, words)
}

fn words_checked(alloc: Global, words: &[u32]) -> Result<Module, CheckFault>
    ensures { UnlessMemory is_memory (IsValid words.now) (HasModuleFault words.now) result }
{
    let read = list_of(alloc, words)?;
    list_checked(alloc, read)
}

fn list_checked(alloc: Global, words: Words) -> Result<Module, CheckFault>
    requires few { length words.insts < 2 ^ 32 }
    requires writable { IsWritable words }
    ensures { UnlessMemory is_memory (IsMadeOf words) (HasListFault words) result }
{
    let body = body_of(alloc, &words)?;
    let ids = sound_ids(alloc, &words)?;
    let hidden = hidden_ids(alloc, &words, &body, &ids)?;
    checked_uses(alloc, words, body, ids, hidden.as_slice())
}

/// The instructions and the bound that the words are.
fn list_of(alloc: Global, words: &[u32]) -> Result<Words, CheckFault>
    ensures read { UnlessMemory is_memory (λ read. module_of words.now ≡ Ok read)
        (HasModuleFault words.now) result }
    ensures few { IfOk result (λ read. length read.insts < 2 ^ 32) }
    ensures writable { IfOk result IsWritable }
{
    match read_module(alloc, words) {
        Ok(read) => Ok(read),
        Err(fault) => Err(words_fault(fault)),
    }
}

/// The body of the function.
fn body_of(alloc: Global, words: &Words) -> Result<Body, CheckFault>
    requires { length words.now.insts < 2 ^ 32 }
    ensures { UnlessMemory is_memory (IsTreeOf words.now.insts) (HasListFault words.now) result }
{
    match tree_of(alloc, words.insts.as_slice()) {
        Ok(body) => Ok(body),
        Err(fault) => Err(tree_fault(fault)),
    }
}

/// What the ids mean, where the function is structured.
fn sound_ids(alloc: Global, words: &Words) -> Result<Ids, CheckFault>
    requires few { length words.now.insts < 2 ^ 32 }
    requires derived { Derives words.now.insts }
    ensures { UnlessMemory is_memory (AreIdsOf words.now) (HasListFault words.now) result }
{
    match ids_of(alloc, words) {
        Ok(ids) => Ok(ids),
        Err(fault) => Err(ids_fault(fault)),
    }
}

fn words_fault(fault: WordsFault) -> CheckFault
    ensures { result ≡ faults.words_fault fault }
{
    match fault {
        WordsFault::Memory => CheckFault::Memory,
        reason => CheckFault::Words(reason),
    }
}

fn tree_fault(fault: TreeFault) -> CheckFault
    ensures { result ≡ faults.tree_fault fault }
{
    match fault {
        TreeFault::Memory => CheckFault::Memory,
        reason => CheckFault::Tree(reason),
    }
}

fn ids_fault(fault: TypeFault) -> CheckFault
    ensures { result ≡ faults.ids_fault fault }
{
    match fault {
        TypeFault::Memory => CheckFault::Memory,
        reason => CheckFault::Ids(reason),
    }
}

/// The module of a list with this tree and these ids, or the first fault of its entry points, its uses and its interface. Of
/// each place the first id that isn't visible is known.
fn checked_uses(
    alloc: Global,
    words: Words,
    body: Body,
    ids: Ids,
    hidden: &[Option<u32>],
) -> Result<Module, CheckFault>
    requires few { length words.insts < 2 ^ 32 }
    requires writable { IsWritable words }
    requires tree { IsTreeOf words.insts body }
    requires ids { AreIdsOf words ids }
    requires for_each { length hidden.now ≡ length words.insts }
    requires hidden { (d : Derives words.insts)
        → AreHidden (intervals_of d) words.insts hidden.now }
    ensures { UnlessMemory is_memory (IsMadeOf words) (HasListFault words) result }
{
    let vertex = is_vertex(words.insts.as_slice());
    if let Some(fault) = list_fault(&words, &ids, vertex, hidden) {
        return Err(fault);
    }
    let spec_ids = spec_ids(alloc, words.insts.as_slice())?;
    Ok(module_with(words, body, ids, vertex, spec_ids))
}
