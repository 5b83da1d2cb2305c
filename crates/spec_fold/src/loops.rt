//! Loops, and those of them that are left at once (SPIR-V specification, section 2.11 "Structured Control Flow").
ghost use Rattle.std.specs.Prelude.{◌≡◌, ◌<◌, length, IfOk, OnOk};
ghost use Rattle.unit_model.specs.ConstantScalars.{is_merge_of_loop};
ghost use Rattle.change_model.specs.Passes as passes;
ghost use Rattle.change_model.specs.Passes.{heads_loop, is_left_loop, is_label};
ghost use Rattle.spec_fold.specs.Loops.{heads_to, merges_to};
ghost use Rattle.spec_fold.specs.Sets.{AddsThose, AreThose};

use crate::marks::Marks;
use crate::scalars::{chosen_target, constant_scalar, is_behind};
use spirv_model::{Inst, op};
use spv_check::Module;
use spv_rewrite::{inst_at, next_label};
use std::alloc::{AllocError, Global};

/// The merge blocks of all loops.
pub fn loop_merges(alloc: Global, of: &Module) -> Result<Marks, AllocError>
    ensures { IfOk result (AreThose (is_merge_of_loop of.now.insts)) }
{
    let insts = of.insts();
    let mut merges = Marks::new(alloc, of.bound(), insts.len())?;
    for place in 0..insts.len() {
        add_merge(&mut merges, inst_at(insts, place))?;
    }
    Ok(merges)
}

/// The merge block of an OpLoopMerge is in the set from now on.
fn add_merge(merges: &mut Marks, inst: &Inst) -> Result<(), AllocError>
    ensures { OnOk result (AddsThose (merges_to inst.now) merges.old merges.new) }
{
    if inst.op == op::LOOP_MERGE {
        return merges.add(inst.word(0));
    }
    Ok(())
}

/// The merge block to which the end of a condition sequence always leaves its loop, where that is known.
pub fn leaving_to(of: &Module, loops: &Marks, place: usize) -> Option<u32>
    requires within { place < length of.now.insts }
    requires loops { AreThose (is_merge_of_loop of.now.insts) loops.now }
    ensures { result ≡ passes.leaving_to of.now.insts place }
{
    let inst = inst_at(of.insts(), place);
    if inst.op != op::BRANCH_CONDITIONAL || is_behind(op::SELECTION_MERGE, of.insts(), place) {
        return None;
    }
    match chosen_target(constant_scalar(of, inst.word(0)), inst) {
        Some(target) if loops.has(target) => Some(target),
        _ => None,
    }
}

/// The merge blocks of the loops that are left at once.
pub fn left_loops(alloc: Global, of: &Module, loops: &Marks) -> Result<Marks, AllocError>
    requires { AreThose (is_merge_of_loop of.now.insts) loops.now }
    ensures { IfOk result (AreThose (is_left_loop of.now.insts)) }
{
    let count = of.insts().len();
    let mut left = Marks::new(alloc, of.bound(), count)?;
    for place in 0..count {
        add_left(&mut left, leaving_to(of, loops, place))?;
    }
    Ok(left)
}

fn add_left(left: &mut Marks, merge: Option<u32>) -> Result<(), AllocError>
    ensures { OnOk result (AddsThose (λ label. is_label label merge) left.old left.new) }
{
    match merge {
        Some(merge) => left.add(merge),
        None => Ok(()),
    }
}

/// The labels of the headers of the loops that stay, where those with these merge blocks are left at once.
pub fn loop_headers(alloc: Global, of: &Module, left: &Marks) -> Result<Marks, AllocError>
    requires { AreThose (is_left_loop of.now.insts) left.now }
    ensures { IfOk result (AreThose (heads_loop of.now.insts)) }
{
    let insts = of.insts();
    let mut heads = Marks::new(alloc, of.bound(), insts.len())?;
    let mut label = 0;
    for place in 0..insts.len() {
        let inst = inst_at(insts, place);
        add_header(&mut heads, left, label, inst)?;
        label = next_label(label, inst);
    }
    Ok(heads)
}

/// The block with a label is in the set from now on, if it has this instruction and that is an OpLoopMerge of a loop that stays.
fn add_header(heads: &mut Marks, left: &Marks, label: u32, inst: &Inst) -> Result<(), AllocError>
    ensures { OnOk result (AddsThose (heads_to left.now label inst.now) heads.old heads.new) }
{
    if inst.op == op::LOOP_MERGE && !left.has(inst.word(0)) {
        return heads.add(label);
    }
    Ok(())
}
