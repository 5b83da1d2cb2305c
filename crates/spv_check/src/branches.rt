//! Which blocks of a function branch to which.
ghost use Rattle.std.specs.Prelude.{◌≡◌, ℕ, ◌<◌, ◌^◌, ◌++◌, ◌∷◌, [], not, ◌&&◌, ◌||◌, ◌==◌, if◌then◌else◌, length, map, IfOk, OnOk};
ghost use Rattle.std.specs.Ordering.{nat_cmp};
ghost use Rattle.std.specs.BTreeMap.{get};
ghost use Rattle.std.specs.BTreeSet.{contains};
ghost use Rattle.spirv_model.specs.Operands.{word_at};
ghost use Rattle.spirv_model.specs.declared.op.TheConstants.{LABEL};
ghost use Rattle.body_model.specs.Classes as classes;
ghost use Rattle.body_model.specs.Switches.{is_among, targets_of};
ghost use Rattle.body_model.specs.Targets.{targets};
ghost use Rattle.valid_model.specs.Definitions as definitions;
ghost use Rattle.spv_check.specs.Branches.{AddsEnd, AddsSource, AreBranches, AreEnds, AreLabels, AreSources, IsWithout, Sees, end_at, label_at, leads_to, list_at, sources_at, stands_among};

use spirv_model::class::Class;
use spirv_model::{Inst, op};
use spv_tree::Memory;
use spv_words::class_of;
use std::alloc::Global;
use std::collections::{BTreeMap, BTreeSet};

/// The labels of the blocks that branch to a block, by its label, in the order of the list.
type Sources = BTreeMap<u32, Vec<u32>>;

/// Where blocks end, and which of them branch to which, by their labels.
#[derive(Drop)]
pub struct Branches {
    labels: Vec<u32>,
    ends: BTreeMap<u32, u32>,
    sources: Sources,
}

impl Branches {
    /// The label of the block in which the instruction at a place stands, or 0 before the first OpLabel.
    pub fn label_at(&self, place: u32) -> u32
        ensures { result ≡ label_at self.now place }
    {
        self.labels
            .as_slice()
            .get(place as usize)
            .copied()
            .unwrap_or(0)
    }

    /// The place of the terminator of the block with a label.
    pub fn end(&self, label: u32) -> Option<u32>
        ensures { result ≡ end_at self.now label }
    {
        self.ends.get(&label).copied()
    }

    /// The labels of the blocks that branch to the block with a label, each once, in the order of the list.
    pub fn sources(&self, label: u32) -> &[u32]
        ensures { result.now ≡ sources_at self.now label }
    {
        match self.sources.get(&label) {
            Some(sources) => sources.as_slice(),
            None => &[],
        }
    }
}

/// The blocks of these instructions, by their labels. Places are 32-bit numbers.
pub fn branches_of(alloc: Global, insts: &[Inst]) -> Result<Branches, Memory>
    requires { length insts.now < 2 ^ 32 }
    ensures { IfOk result (AreBranches insts.now) }
{
    let labels = block_labels(alloc, insts)?;
    let ends = block_ends(alloc, insts, labels.as_slice())?;
    let sources = block_sources(alloc, insts, labels.as_slice())?;
    Ok(Branches {
        labels,
        ends,
        sources,
    })
}

/// The instruction at this place.
pub fn inst_at(insts: &[Inst], place: usize) -> &Inst
    requires { place < length insts.now }
    ensures { result.now ≡ definitions.inst_at insts.now place }
{
    &insts[place]
}

pub fn is_terminator(op: u16) -> bool
    ensures { result ≡ classes.is_terminator op }
{
    matches!(class_of(op), Some(Class::Terminator))
}

/// For each place the label of the block in which it stands.
fn block_labels(alloc: Global, insts: &[Inst]) -> Result<Vec<u32>, Memory>
    ensures { IfOk result (λ labels. AreLabels insts.now labels.items) }
{
    let mut labels = Vec::new(alloc);
    let mut label = 0;
    for place in 0..insts.len() {
        labels.push(label)?;
        label = label_after(label, inst_at(insts, place));
    }
    Ok(labels)
}

fn label_after(label: u32, inst: &Inst) -> u32
    ensures { result ≡ (if inst.now.op == LABEL then word_at 0 inst.now else label) }
{
    if inst.op == op::LABEL {
        inst.word(0)
    } else {
        label
    }
}

/// The places of terminators, by the labels of their blocks.
fn block_ends(alloc: Global, insts: &[Inst], labels: &[u32]) -> Result<BTreeMap<u32, u32>, Memory>
    requires few { length insts.now < 2 ^ 32 }
    requires known { AreLabels insts.now labels.now }
    ensures { IfOk result (AreEnds insts.now) }
{
    let mut ends = BTreeMap::new(alloc);
    for place in 0..insts.len() {
        add_end(
            &mut ends,
            labels[place],
            inst_at(insts, place),
            place as u32,
        )?;
    }
    Ok(ends)
}

fn add_end(ends: &mut BTreeMap<u32, u32>, label: u32, inst: &Inst, place: u32) -> Result<(), Memory>
    ensures { OnOk result (AddsEnd label inst.now place ends.old ends.new) }
{
    if !is_terminator(inst.op) {
        return Ok(());
    }
    if !ends.contains_key(&label) {
        ends.insert(label, place)?;
    }
    Ok(())
}

/// The labels of the blocks that branch to a block.
fn block_sources(alloc: Global, insts: &[Inst], labels: &[u32]) -> Result<Sources, Memory>
    requires { AreLabels insts.now labels.now }
    ensures { IfOk result (AreSources insts.now) }
{
    let mut sources = BTreeMap::new(alloc);
    for place in 0..insts.len() {
        add_sources(alloc, &mut sources, labels[place], inst_at(insts, place))?;
    }
    Ok(sources)
}

/// The block with this label ends with the instruction, if that is a terminator.
fn add_sources(alloc: Global, sources: &mut Sources, label: u32, inst: &Inst) -> Result<(), Memory>
    ensures { OnOk result (AddsSource label (leads_to inst.now) sources.old sources.new) }
{
    if !is_terminator(inst.op) {
        return Ok(());
    }
    let targets = targets_of(alloc, inst)?;
    add_targets(alloc, sources, label, targets.as_slice())
}

/// The label goes to each of the targets, once.
fn add_targets(
    alloc: Global,
    sources: &mut Sources,
    label: u32,
    targets: &[u32],
) -> Result<(), Memory>
    ensures { OnOk result (AddsSource label (stands_among targets.now) sources.old sources.new) }
{
    let mut seen = BTreeSet::new(alloc);
    for target in targets {
        if !see(&mut seen, *target)? {
            continue;
        }
        add_source(alloc, sources, *target, label)?;
    }
    Ok(())
}

/// Whether the label is new. It is seen from now on.
pub fn see(seen: &mut BTreeSet<u32>, label: u32) -> Result<bool, Memory>
    ensures before { IfOk result (λ is_new. is_new ≡ not (contains nat_cmp seen.old label)) }
    ensures now { OnOk result (Sees label seen.old seen.new) }
{
    let is_new = seen.insert(label)?;
    Ok(is_new)
}

fn add_source(alloc: Global, sources: &mut Sources, target: u32, label: u32) -> Result<(), Memory>
    ensures { OnOk result (AddsSource label (λ other. target == other) sources.old sources.new) }
{
    let mut list = taken(alloc, sources, target);
    list.push(label)?;
    sources.insert(target, list)?;
    Ok(())
}

/// Takes the list of a target out.
fn taken(alloc: Global, sources: &mut Sources, target: u32) -> Vec<u32>
    ensures list { result.items ≡ list_at sources.old target }
    ensures others { IsWithout target sources.old sources.new }
{
    match sources.remove(&target) {
        Some(list) => list,
        None => Vec::new(alloc),
    }
}

/// The labels that a terminator names.
#[tactic(auto, unfolding(body_model::specs::Targets::targets_by))]
fn targets_of(alloc: Global, inst: &Inst) -> Result<Vec<u32>, Memory>
    ensures { IfOk result (λ list. list.items ≡ targets inst.now) }
{
    let mut list = Vec::new(alloc);
    match inst.op {
        op::BRANCH => list.push(inst.word(0))?,
        op::BRANCH_CONDITIONAL => {
            list.push(inst.word(1))?;
            list.push(inst.word(2))?;
        }
        op::SWITCH => return switch_targets(alloc, inst.words.as_slice()),
        _ => {}
    }
    Ok(list)
}

/// The default and the targets of an OpSwitch with these words.
fn switch_targets(alloc: Global, words: &[u32]) -> Result<Vec<u32>, Memory>
    ensures { IfOk result (λ list. list.items ≡ targets_of words.now) }
{
    let mut list = Vec::new(alloc);
    list.push(words.get(1).copied().unwrap_or(0))?;
    let (_, rest) = words.split_at(words.len().min(2));
    let mut rest = rest;
    while let Some((_, after)) = rest.split_first() {
        let Some((target, after)) = after.split_first() else {
            return Ok(list);
        };
        list.push(*target)?;
        rest = after;
    }
    Ok(list)
}
