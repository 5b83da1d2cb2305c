//! Where blocks end.
ghost use Rattle.std.specs.Prelude.{◌≡◌, ◌<◌, ◌^◌, length, IfOk, OnOk};
ghost use Rattle.body_model.specs.Classes as classes;
ghost use Rattle.check_model.specs.Validity.{IsValidList};
ghost use Rattle.spv_rewrite.specs.Ends.{AddsEnd, AreEnds, next_label};

use crate::change::inst_at;
use id_table::IdTable;
use spirv_model::class::Class;
use spirv_model::{Inst, op};
use spv_words::class_of;
use std::alloc::{AllocError, Global};

/// The places of the terminators of a valid module with these instructions and this id bound, by the labels of their blocks.
/// Places are 32-bit numbers.
pub fn block_ends(alloc: Global, bound: u32, insts: &[Inst]) -> Result<IdTable<u32>, AllocError>
    requires few { length insts.now < 2 ^ 32 }
    requires valid { IsValidList (record { bound = bound; insts = insts.now }) }
    ensures { IfOk result (AreEnds insts.now) }
{
    let mut ends = IdTable::new(alloc, bound, insts.len())?;
    let mut label = 0;
    for place in 0..insts.len() {
        let inst = inst_at(insts, place);
        add_end(&mut ends, label, inst, place as u32)?;
        label = next_label(label, inst);
    }
    Ok(ends)
}

/// The label of the block in which the instruction behind this one stands, which stands in the block with a label.
pub fn next_label(label: u32, inst: &Inst) -> u32
    ensures { result ≡ next_label inst.now label }
{
    if inst.op == op::LABEL {
        inst.word(0)
    } else {
        label
    }
}

fn is_terminator(op: u16) -> bool
    ensures { result ≡ classes.is_terminator op }
{
    matches!(class_of(op), Some(Class::Terminator))
}

/// The block with a label ends at a place, if the instruction there is a terminator.
fn add_end(ends: &mut IdTable<u32>, label: u32, inst: &Inst, place: u32) -> Result<(), AllocError>
    ensures { OnOk result (AddsEnd label inst.now place ends.old ends.new) }
{
    if is_terminator(inst.op) {
        return ends.insert(label, place);
    }
    Ok(())
}
