//! Which ids are visible where they are used.
ghost use Rattle.std.specs.Prelude.{◌≡◌, ℕ, ◌<◌, ◌||◌, ◌==◌, not, if◌then◌else◌, length, Some, None, IfOk, slice_index};
ghost use Rattle.std.specs.List.{list_all};
ghost use Rattle.std.specs.Ordering.{nat_cmp};
ghost use Rattle.std.specs.BTreeSet.{contains};
ghost use Rattle.spirv_model.specs.declared.op.TheConstants.{PHI};
ghost use Rattle.spirv_model.specs.Operands.{word_at, words_from};
ghost use Rattle.body_model.specs.Switches as switches;
ghost use Rattle.valid_model.specs.Definitions as definitions;
ghost use Rattle.check_model.specs.Visibility as spec;
ghost use Rattle.check_model.specs.Visibility.{use_at};
ghost use Rattle.spv_check.specs.Branches.{label_at, sources_at};
ghost use Rattle.spv_check.specs.Visibility.{HasLabels, IsFirstHidden, TellsVisible, blocks_named, first_hidden_id, first_hidden_value, is_shown, phi_hidden};

use crate::branches::{Branches, inst_at, see};
use crate::used_ids::used_ids;
use spirv_model::{Inst, op};
use spv_tree::Memory;
use spv_types::Ids;
use std::alloc::Global;
use std::collections::BTreeSet;

/// The first id that the instruction at a place uses and that isn't visible; before it a phi that doesn't name the blocks
/// that branch to its block, each once.
pub fn not_visible(
    alloc: Global,
    insts: &[Inst],
    ids: &Ids,
    limits: &[u32],
    branches: &Branches,
    place: u32,
) -> Result<Option<u32>, Memory>
    requires known { TellsVisible insts.now ids.now limits.now branches.now }
    requires within { place < length insts.now }
    ensures { IfOk result (IsFirstHidden insts.now place) }
{
    let inst = inst_at(insts, place as usize);
    if inst.op == op::PHI {
        return phi_fault(alloc, insts, ids, limits, branches, place);
    }
    Ok(hidden_id(ids, limits, inst, place))
}

/// The first of the ids that an instruction uses, phis aside, that isn't visible at a place.
fn hidden_id(ids: &Ids, limits: &[u32], inst: &Inst, place: u32) -> Option<u32>
    ensures { result ≡ first_hidden_id ids.now limits.now place (spec.used_ids inst.now) }
{
    let mut left = used_ids(inst);
    while let Some(id) = left.next_id() {
        if !is_visible(ids, limits, id, place) {
            return Some(id);
        }
    }
    None
}

/// The fault of the phi at a place: its result where it doesn't name the blocks that branch to its block, each once, else
/// the first id that it uses and that isn't visible: its type where it stands, and each value at the end of its block.
fn phi_fault(
    alloc: Global,
    insts: &[Inst],
    ids: &Ids,
    limits: &[u32],
    branches: &Branches,
    place: u32,
) -> Result<Option<u32>, Memory>
    requires known { TellsVisible insts.now ids.now limits.now branches.now }
    requires within { place < length insts.now }
    requires is_phi { (definitions.inst_at insts.now place).op ≡ PHI }
    ensures { IfOk result (IsFirstHidden insts.now place) }
{
    let inst = inst_at(insts, place as usize);
    let named = blocks_of(alloc, inst.words_from(2))?;
    let sources = branches.sources(branches.label_at(place));
    if !are_those(alloc, named.as_slice(), sources)? {
        return Ok(Some(inst.word(1)));
    }
    Ok(hidden(ids, limits, branches, inst, place))
}

/// The first id that a phi uses and that isn't visible.
fn hidden(ids: &Ids, limits: &[u32], branches: &Branches, inst: &Inst, place: u32) -> Option<u32>
    ensures { result ≡ phi_hidden ids.now limits.now branches.now inst.now place }
{
    let result_type = inst.word(0);
    if !is_visible(ids, limits, result_type, place) {
        return Some(result_type);
    }
    hidden_value(ids, limits, branches, inst.words_from(2), place)
}

fn hidden_value(
    ids: &Ids,
    limits: &[u32],
    branches: &Branches,
    words: &[u32],
    place: u32,
) -> Option<u32>
    ensures { result ≡ first_hidden_value ids.now limits.now branches.now place words.now }
{
    let mut rest = words;
    while let Some((value, after)) = rest.split_first() {
        let (block, after) = after.split_first()?;
        let at = branches.end(*block).unwrap_or(place);
        if !is_visible(ids, limits, *value, at) {
            return Some(*value);
        }
        rest = after;
    }
    None
}

/// Whether what defines the id is visible at a place.
pub fn is_visible(ids: &Ids, limits: &[u32], id: u32, at: u32) -> bool
    ensures { result ≡ is_shown ids.now limits.now (use_at at id) }
{
    match ids.place(id) {
        None => false,
        Some(place) => place < at && at < limit(limits, place),
    }
}

fn limit(limits: &[u32], place: u32) -> u32
    ensures { result ≡ slice_index limits.now place }
{
    limits.get(place as usize).copied().unwrap_or(0)
}

/// The blocks that these words of a phi name.
fn blocks_of(alloc: Global, words: &[u32]) -> Result<Vec<u32>, Memory>
    ensures { IfOk result (λ list. list.items ≡ blocks_named words.now) }
{
    let mut list = Vec::new(alloc);
    let mut rest = words;
    while let Some((_, after)) = rest.split_first() {
        let Some((block, after)) = after.split_first() else {
            return Ok(list);
        };
        list.push(*block)?;
        rest = after;
    }
    Ok(list)
}

/// Whether these labels are the others, in any order, each once.
fn are_those(alloc: Global, named: &[u32], labels: &[u32]) -> Result<bool, Memory>
    ensures { IfOk result (λ are. are ≡ spec.are_those named.now labels.now) }
{
    if repeat(alloc, named)? {
        return Ok(false);
    }
    let known = label_set(alloc, labels)?;
    if !are_all_in(named, &known) {
        return Ok(false);
    }
    let known = label_set(alloc, named)?;
    Ok(are_all_in(labels, &known))
}

/// Whether two of these labels are equal.
fn repeat(alloc: Global, labels: &[u32]) -> Result<bool, Memory>
    ensures { IfOk result (λ are_equal. are_equal ≡ switches.repeat labels.now) }
{
    let mut seen = BTreeSet::new(alloc);
    for label in labels {
        if !see(&mut seen, *label)? {
            return Ok(true);
        }
    }
    Ok(false)
}

fn label_set(alloc: Global, labels: &[u32]) -> Result<BTreeSet<u32>, Memory>
    ensures { IfOk result (λ set. HasLabels set labels.now) }
{
    let mut set = BTreeSet::new(alloc);
    for label in labels {
        let _is_new = see(&mut set, *label)?;
    }
    Ok(set)
}

fn are_all_in(labels: &[u32], set: &BTreeSet<u32>) -> bool
    ensures { result ≡ list_all (λ label. contains nat_cmp set.now label) labels.now }
{
    for label in labels {
        if !set.contains(label) {
            return false;
        }
    }
    true
}
