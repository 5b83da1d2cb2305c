//! One pass over a module: what becomes of each instruction, from the first to the last.
ghost use Rattle.std.specs.Prelude.{◌≡◌, ℕ, ◌+◌, ◌<◌, ◌==◌, ◌^◌, if◌then◌else◌, length, None, IfOk, OnOk};
ghost use Rattle.spirv_model.specs.declared.op.TheConstants as opcode;
ghost use Rattle.valid_model.specs.Definitions as definitions;
ghost use Rattle.change_model.specs.declared.fate.Fate.TheVariants.{Resolves};
ghost use Rattle.change_model.specs.Passes as passes;
ghost use Rattle.change_model.specs.Plans.{name_in};
ghost use Rattle.spec_fold.specs.Facts.{AreFacts};
ghost use Rattle.spec_fold.specs.Walks.{IsPassOf, IsStep, IsWalk, named_after, plan_in, value_for};

use crate::decide::{fate_found, is_label};
use crate::facts::{Facts, facts_of};
use crate::loops::leaving_to;
use crate::marks::Marks;
use crate::notes::{note_labels, note_selection};
use crate::phis::lone_value;
use crate::walk::Walk;
use change_model::Fate;
use spirv_model::op;
use spv_check::Module;
use spv_rewrite::{inst_at, name_of, next_label};
use std::alloc::{AllocError, Global};

/// What one pass finds for a module without specialization constants, where inputs are zeros at these locations. The time is
/// linear in the words of the module.
pub fn found_in(alloc: Global, of: &Module, zeros: &[u32]) -> Result<Walk, AllocError>
    ensures { IfOk result (IsPassOf of.now zeros.now) }
{
    let facts = facts_of(alloc, of, zeros)?;
    pass_with(alloc, &facts)
}

fn pass_with(alloc: Global, facts: &Facts<'_>) -> Result<Walk, AllocError>
    requires { AreFacts facts.now }
    ensures { IfOk result (IsPassOf facts.now.of.now facts.now.zeros.now) }
{
    let mut walk = begin(alloc, facts)?;
    for place in 0..facts.of.insts().len() {
        step(&mut walk, facts, place)?;
    }
    Ok(walk)
}

/// Before the first instruction.
fn begin(alloc: Global, facts: &Facts<'_>) -> Result<Walk, AllocError>
    ensures { IfOk result (IsWalk facts.now 0) }
{
    let bound = facts.of.bound();
    let count = facts.of.insts().len();
    let named = Marks::new(alloc, bound, count)?;
    let merges = Marks::new(alloc, bound, count)?;
    Ok(Walk {
        fates: Vec::new(alloc),
        names: Vec::new(alloc),
        named,
        merges,
        held: None,
        label: 0,
        changes: false,
    })
}

/// Passes the instruction at a place.
fn step(walk: &mut Walk, facts: &Facts<'_>, place: usize) -> Result<(), AllocError>
    requires facts { AreFacts facts.now }
    requires walk { IsWalk facts.now place walk.now }
    requires within { place < length facts.now.of.now.insts }
    ensures { OnOk result (IsWalk facts.now (place + 1) walk.new) }
{
    let fate = fate_found(facts, walk, place);
    let value = value_for(facts, walk, place, fate);
    advance(walk, facts, place, fate, value)
}

/// The value that stands for a phi with this fate.
fn value_for(facts: &Facts<'_>, walk: &Walk, place: usize, fate: Fate) -> Option<u32>
    requires facts { AreFacts facts.now }
    requires walk { IsWalk facts.now place walk.now }
    requires within { place < length facts.now.of.now.insts }
    requires phi { fate ≡ Resolves → (definitions.inst_at facts.now.of.now.insts place).op ≡ opcode.PHI }
    ensures { result ≡ value_for fate (passes.pairs_found (plan_in walk.now) facts.now.of.now.insts place) }
{
    if fate == Fate::Resolves {
        return lone_value(facts, walk, place);
    }
    None
}

/// One more instruction has this fate, and a value stands for it if it is a phi that goes.
fn advance(
    walk: &mut Walk,
    facts: &Facts<'_>,
    place: usize,
    fate: Fate,
    value: Option<u32>,
) -> Result<(), AllocError>
    requires facts { AreFacts facts.now }
    requires within { place < length facts.now.of.now.insts }
    ensures { OnOk result (IsStep facts.now.of.now.insts place fate value walk.old walk.new) }
{
    let inst = inst_at(facts.of.insts(), place);
    take_name(&mut walk.names, inst.word(1), value)?;
    note_labels(&mut walk.named, fate, inst)?;
    note_selection(&mut walk.merges, fate, inst)?;
    walk.held = next_held(facts, walk.held, place);
    walk.label = next_label(walk.label, inst);
    walk.changes = walk.changes || fate != Fate::Stays;
    walk.fates.push(fate)?;
    Ok(())
}

/// From now on the name of a value stands for an id.
fn take_name(names: &mut Vec<u32>, own: u32, value: Option<u32>) -> Result<(), AllocError>
    ensures { OnOk result ((id : ℕ)
        → name_in names.new.items id ≡ named_after names.old.items own value id) }
{
    match value {
        Some(value) => set_name(names, own as usize, name_of(names.as_slice(), value)),
        None => Ok(()),
    }
}

/// An id has this name from now on.
fn set_name(names: &mut Vec<u32>, own: usize, name: u32) -> Result<(), AllocError>
    requires { own < 2 ^ 32 }
    ensures { OnOk result ((id : ℕ)
        → name_in names.new.items id ≡ (if own == id then name else name_in names.old.items id)) }
{
    while names.len() <= own {
        names.push(names.len() as u32)?;
    }
    names[own] = name;
    Ok(())
}

/// The merge block of the loop that is left at once in whose condition sequence the instruction behind a place stands.
fn next_held(facts: &Facts<'_>, held: Option<u32>, place: usize) -> Option<u32>
    requires facts { AreFacts facts.now }
    requires within { place < length facts.now.of.now.insts }
    ensures { result ≡ passes.next_held facts.now.of.now.insts place held }
{
    match held {
        None => opened(facts, place),
        Some(merge) => {
            if is_label(merge, leaving_to(facts.of, &facts.loops, place)) {
                None
            } else {
                Some(merge)
            }
        }
    }
}

/// The merge block of the loop that is left at once whose OpLoopMerge stands at a place.
fn opened(facts: &Facts<'_>, place: usize) -> Option<u32>
    requires facts { AreFacts facts.now }
    requires within { place < length facts.now.of.now.insts }
    ensures { result ≡ passes.next_held facts.now.of.now.insts place None }
{
    let inst = inst_at(facts.of.insts(), place);
    if inst.op == op::LOOP_MERGE && facts.left.has(inst.word(0)) {
        Some(inst.word(0))
    } else {
        None
    }
}
