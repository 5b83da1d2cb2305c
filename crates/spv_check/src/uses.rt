//! The first fault of uses: at the lowest place, and there an id that isn't visible before operands of another type before a
//! wrong storage class.
ghost use Rattle.std.specs.Prelude.{◌≡◌, ◌||◌, ◌<◌, ◌^◌, List, length, slice_index_or, None};
ghost use Rattle.valid_model.specs.Definitions as definitions;
ghost use Rattle.valid_model.specs.ModuleFacts.{facts_of, is_vertex};
ghost use Rattle.check_model.specs.EntryPoints.{is_op_function};
ghost use Rattle.check_model.specs.Intervals.{Interval};
ghost use Rattle.check_model.specs.Validity as spec;
ghost use Rattle.spv_types.specs.Answers.{AreIdsOf};
ghost use Rattle.spv_check.specs.Uses.{AreHidden, use_fault_with};

use crate::operand_types::operands_fit;
use crate::storage::is_wrong_storage;
use crate::typing::ModuleIds;
use check_model::CheckFault;
use spirv_model::{Inst, Words, op};
use spv_types::Ids;

/// The fault at a place, where this id isn't visible there.
fn use_fault_at(
    known: &ModuleIds,
    in_function: bool,
    inst: &Inst,
    place: u32,
    hidden: Option<u32>,
) -> Option<CheckFault>
    ensures { result ≡ use_fault_with known.now in_function inst.now place hidden }
{
    if let Some(id) = hidden {
        return Some(CheckFault::NotVisible(id));
    }
    if !operands_fit(known, inst) {
        return Some(CheckFault::OperandType(place));
    }
    if is_wrong_storage(known, in_function, inst) {
        return Some(CheckFault::WrongStorage(place));
    }
    None
}

fn inst_at(insts: &[Inst], place: usize) -> &Inst
    requires { place < length insts.now }
    ensures { result.now ≡ definitions.inst_at insts.now place }
{
    &insts[place]
}

fn hidden_at(hidden: &[Option<u32>], place: usize) -> Option<u32>
    requires { place < length hidden.now }
    ensures { result ≡ slice_index_or hidden.now place None }
{
    hidden[place]
}

/// Whether what follows the instruction is behind OpFunction.
fn is_behind_function(in_function: bool, inst: &Inst) -> bool
    ensures { result ≡ (in_function || is_op_function inst.now) }
{
    in_function || inst.op == op::FUNCTION
}

/// The first fault of uses, where of each place the first id that isn't visible is known.
pub fn use_fault(
    words: &Words,
    ids: &Ids,
    vertex: bool,
    hidden: &[Option<u32>],
) -> Option<CheckFault>
    requires few { length words.now.insts < 2 ^ 32 }
    requires ids { AreIdsOf words.now ids.now }
    requires vertex { vertex ≡ is_vertex (facts_of words.now.insts) }
    requires for_each { length hidden.now ≡ length words.now.insts }
    ensures { (intervals : List Interval) → AreHidden intervals words.now.insts hidden.now
        → result ≡ spec.use_fault intervals words.now.insts }
{
    let insts = words.insts.as_slice();
    let known = ModuleIds { insts, ids, vertex };
    let mut in_function = false;
    for place in 0..insts.len() {
        let inst = inst_at(insts, place);
        let hidden = hidden_at(hidden, place);
        if let Some(fault) = use_fault_at(&known, in_function, inst, place as u32, hidden) {
            return Some(fault);
        }
        in_function = is_behind_function(in_function, inst);
    }
    None
}
