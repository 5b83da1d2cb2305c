ghost use Rattle.std.specs.Prelude.{◌≡◌, ℕ, ◌-◌, ◌<◌, ◌≤◌, ◌^◌, not, ◌&&◌, ◌==◌, if◌then◌else◌, List, [], ◌∷◌, ◌++◌, Some, IfOk, OnOk, length, slice_get};
ghost use Rattle.std.specs.Ordering.{nat_cmp};
ghost use Rattle.std.specs.BTreeMap.{get};
ghost use Rattle.std.specs.BTreeSet.{contains};
ghost use Rattle.spirv_model.specs.declared.op.TheConstants.{SWITCH};
ghost use Rattle.body_model.specs.Grammar.{IsOp};
ghost use Rattle.body_model.specs.Scope as grammar;
ghost use Rattle.body_model.specs.Switches.{labels_of, without};
ghost use Rattle.spv_tree.specs.Barred.{HasLabels, as_cases, scope_in};
ghost use Rattle.spv_tree.specs.Parts.{AreSwitches, IsArm, IsArms, IsDueBlock, IsLoop, IsSelection, IsSequence, IsSwitch, Knows, Numbers};
ghost use Rattle.spv_tree.specs.declared.tree.Node.TheVariants as node;
ghost use Rattle.spv_tree.specs.Trees.{block_at, numbered, run};

use crate::barred::{OpenArm, Targets, with_arm};
use crate::block::block_end;
use crate::cases::{SwitchCase, arm_labels, switch_cases};
use crate::labels::{arm_label, missing};
use crate::scope;
use crate::scope::Scope;
use crate::tree::{Block, Choice, Node, Pick, PickCase, Round, Run};
use body_model::{BlockEnd, LoopHead, SelectionHead, SequenceEnd, SwitchHead, TreeFault};
use limits::NESTING;
use spirv_model::Inst;
use sqlite_items::{Boxed, Items};
use std::alloc::{AllocError, Global};
use std::collections::{BTreeMap, BTreeSet};

/// What is known of a list: for each place whether a label stands there that stood before, and the targets of each
/// OpSwitch.
#[derive(Drop)]
pub struct Tables {
    pub repeated: Vec<bool>,
    pub targets: Targets,
}

/// A sequence that was read: its run, the place after it, and the label that has to stand there, where it is known.
#[derive(Drop)]
pub struct ReadSequence {
    pub run: Run,
    pub next: Option<u32>,
    pub place: u32,
}

/// A selection, an OpSwitch or a loop that was read, and the place after it.
#[derive(Drop)]
pub struct ReadNode {
    pub node: Node,
    pub place: u32,
}

/// One way of a selection: the run of its arm, unless it goes straight to the merge block, and the place after it.
#[derive(Drop)]
pub struct ReadArm {
    pub run: Option<Run>,
    pub place: u32,
}

/// The arms of an OpSwitch in their order, their numbers by their labels, and the place after them.
#[derive(Drop)]
pub struct ReadArms {
    pub runs: Items<Run>,
    pub numbers: BTreeMap<u32, u32>,
    pub place: u32,
}

/// The sequence at a place in the scope, whose first block has the label that is wanted.
#[cycle(sequences)]
pub fn sequence(
    alloc: Global,
    insts: &[Inst],
    tables: &Tables,
    arms: &[OpenArm],
    scope: Scope,
    wanted: Option<u32>,
    place: u32,
) -> Result<ReadSequence, TreeFault>
    requires few { length insts.now < 2 ^ 32 }
    requires known { Knows insts.now tables.now }
    requires switches { AreSwitches insts.now arms.now }
    ensures { IsSequence insts.now (scope_in insts.now arms.now scope) wanted place result }
{
    let mut nodes = Items::new(alloc);
    let mut scope = scope;
    let mut wanted = wanted;
    let mut place = place;
    loop {
        match due_block(alloc, insts, tables, arms, scope, wanted, place)? {
            BlockEnd::Broken(fault) => return Err(fault),
            BlockEnd::Ends(last) => return Ok(ended(insts, nodes, place, last)?),
            BlockEnd::GoesOn(after) => {
                nodes.push(Node::Block(block(insts, place, after)))?;
                scope = scope::behind_block(scope);
                wanted = None;
                place = after;
            }
            BlockEnd::Selects(head) => {
                nodes.push(Node::Block(block(insts, place, head.after)))?;
                let read = selection(alloc, insts, tables, arms, scope, head)?;
                nodes.push(read.node)?;
                scope = scope::behind_selection(scope);
                wanted = Some(head.merge);
                place = read.place;
            }
            BlockEnd::Picks(head) => {
                nodes.push(Node::Block(block(insts, place, head.after)))?;
                let read = switch(alloc, insts, tables, arms, scope, head)?;
                nodes.push(read.node)?;
                scope = scope::behind_selection(scope);
                wanted = Some(head.merge);
                place = read.place;
            }
            BlockEnd::Loops(head) => {
                nodes.push(Node::Block(block(insts, place, head.after)))?;
                let read = round(alloc, insts, tables, arms, scope, head)?;
                nodes.push(read.node)?;
                scope = scope::behind_loop(scope);
                wanted = Some(head.merge);
                place = read.place;
            }
        }
    }
}

/// How the block that is due at a place ends.
fn due_block(
    alloc: Global,
    insts: &[Inst],
    tables: &Tables,
    arms: &[OpenArm],
    scope: Scope,
    wanted: Option<u32>,
    place: u32,
) -> Result<BlockEnd, TreeFault>
    requires few { length insts.now < 2 ^ 32 }
    requires known { Knows insts.now tables.now }
    requires switches { AreSwitches insts.now arms.now }
    ensures { IsDueBlock insts.now (scope_in insts.now arms.now scope) wanted place result }
{
    if let Some(fault) = missing(insts, tables.repeated.as_slice(), wanted, place) {
        return Err(fault);
    }
    let end = block_end(alloc, insts, &tables.targets, arms, scope, place)?;
    Ok(end)
}

/// The sequence that ends with the block at a place, behind the nodes that were read.
fn ended(
    insts: &[Inst],
    nodes: Items<Node>,
    place: u32,
    last: SequenceEnd,
) -> Result<ReadSequence, AllocError>
    requires within { place < length insts.now }
    requires forward { place ≤ last.after }
    ensures { let all = nodes ++ node.Block (block_at insts.now place last.after) ∷ [] in
        IfOk result (λ read. read ≡ record {
          run = run all last.end;
          next = last.next;
          place = last.after;
        }) }
{
    let mut nodes = nodes;
    nodes.push(Node::Block(block(insts, place, last.after)))?;
    let run = Run {
        nodes,
        end: last.end,
    };
    Ok(ReadSequence {
        run,
        next: last.next,
        place: last.after,
    })
}

/// The block from its OpLabel up to the place after its terminator.
fn block(insts: &[Inst], first: u32, after: u32) -> Block
    requires within { first < length insts.now }
    requires forward { first ≤ after }
    ensures { result ≡ block_at insts.now first after }
{
    Block {
        label: insts[first as usize].word(0),
        first,
        count: after - first,
    }
}

#[cycle(sequences)]
fn selection(
    alloc: Global,
    insts: &[Inst],
    tables: &Tables,
    arms: &[OpenArm],
    scope: Scope,
    head: SelectionHead,
) -> Result<ReadNode, TreeFault>
    requires few { length insts.now < 2 ^ 32 }
    requires known { Knows insts.now tables.now }
    requires switches { AreSwitches insts.now arms.now }
    requires open { scope.depth < NESTING }
    ensures { IsSelection insts.now (scope_in insts.now arms.now scope) head result }
{
    let SelectionHead {
        cond,
        merge,
        on_true,
        on_false,
        after,
    } = head;
    let yes = arm(alloc, insts, tables, arms, scope, merge, on_true, after)?;
    let no = arm(
        alloc, insts, tables, arms, scope, merge, on_false, yes.place,
    )?;
    let place = no.place;
    let choice = Choice {
        cond,
        merge,
        yes: yes.run,
        no: no.run,
    };
    let node = Node::Choice(Boxed::new(alloc, choice)?);
    Ok(ReadNode { node, place })
}

/// One way of a selection.
#[cycle(sequences)]
fn arm(
    alloc: Global,
    insts: &[Inst],
    tables: &Tables,
    arms: &[OpenArm],
    scope: Scope,
    merge: u32,
    target: u32,
    place: u32,
) -> Result<ReadArm, TreeFault>
    requires few { length insts.now < 2 ^ 32 }
    requires known { Knows insts.now tables.now }
    requires switches { AreSwitches insts.now arms.now }
    requires open { scope.depth < NESTING }
    ensures { IsArm insts.now (scope_in insts.now arms.now scope) merge target place result }
{
    if target == merge {
        return Ok(ReadArm { run: None, place });
    }
    let scope = scope::arm(scope, merge);
    let read = sequence(alloc, insts, tables, arms, scope, Some(target), place)?;
    Ok(ReadArm {
        run: Some(read.run),
        place: read.place,
    })
}

#[cycle(sequences)]
fn switch(
    alloc: Global,
    insts: &[Inst],
    tables: &Tables,
    arms: &[OpenArm],
    scope: Scope,
    head: SwitchHead,
) -> Result<ReadNode, TreeFault>
    requires few { length insts.now < 2 ^ 32 }
    requires known { Knows insts.now tables.now }
    requires switches { AreSwitches insts.now arms.now }
    requires open { scope.depth < NESTING }
    requires last { IsOp SWITCH (slice_get insts.now (head.after - 1)) }
    requires behind { 0 < head.after }
    ensures { IsSwitch insts.now (scope_in insts.now arms.now scope) head result }
{
    let SwitchHead {
        selector,
        merge,
        default,
        after,
    } = head;
    let inst = &insts[after as usize - 1];
    let literals = switch_cases(alloc, inst.words.as_slice())?;
    let left = arm_labels(alloc, merge, inst.word(1), literals.as_slice())?;
    let read = switch_arms(alloc, insts, tables, arms, scope, head, left)?;
    let cases = pick_cases(alloc, literals.as_slice(), &read.numbers)?;
    let default = read.numbers.get(&default).copied();
    let place = read.place;
    let pick = Pick {
        selector,
        merge,
        cases,
        default,
        arms: read.runs,
    };
    let node = Node::Pick(Boxed::new(alloc, pick)?);
    Ok(ReadNode { node, place })
}

/// The literals with the numbers of their arms.
fn pick_cases(
    alloc: Global,
    literals: &[SwitchCase],
    numbers: &BTreeMap<u32, u32>,
) -> Result<Items<PickCase>, AllocError>
    ensures { (labels : List ℕ) → Numbers numbers.now labels
        → IfOk result (λ list. list ≡ numbered (as_cases literals.now) labels) }
{
    let mut list = Items::new(alloc);
    for case in literals {
        list.push(PickCase {
            literal: case.literal,
            arm: numbers.get(&case.target).copied(),
        })?;
    }
    Ok(list)
}

/// The arms of an OpSwitch, which have these labels.
#[cycle(sequences)]
fn switch_arms(
    alloc: Global,
    insts: &[Inst],
    tables: &Tables,
    arms: &[OpenArm],
    scope: Scope,
    head: SwitchHead,
    labels: BTreeSet<u32>,
) -> Result<ReadArms, TreeFault>
    requires few { length insts.now < 2 ^ 32 }
    requires known { Knows insts.now tables.now }
    requires switches { AreSwitches insts.now arms.now }
    requires open { scope.depth < NESTING }
    requires last { IsOp SWITCH (slice_get insts.now (head.after - 1)) }
    requires behind { 0 < head.after }
    requires labels { HasLabels labels (labels_of insts.now head) }
    ensures { IsArms insts.now (scope_in insts.now arms.now scope) head result }
{
    let mut left = labels;
    let mut runs = Items::new(alloc);
    let mut numbers = BTreeMap::new(alloc);
    let mut place = head.after;
    while !left.is_empty() {
        let label = arm_label(insts, tables.repeated.as_slice(), &left, place)?;
        let read = switch_arm(alloc, insts, tables, arms, scope, head, label, place)?;
        add_number(&mut numbers, label, runs.len() as u32)?;
        drop_label(&mut left, label);
        runs.push(read.run)?;
        place = read.place;
    }
    Ok(ReadArms {
        runs,
        numbers,
        place,
    })
}

fn drop_label(labels: &mut BTreeSet<u32>, label: u32)
    ensures { (other : ℕ) → contains nat_cmp labels.new other
        ≡ (not (other == label) && contains nat_cmp labels.old other) }
{
    labels.remove(&label);
}

fn add_number(numbers: &mut BTreeMap<u32, u32>, label: u32, number: u32) -> Result<(), AllocError>
    ensures { OnOk result ((other : ℕ) → get nat_cmp numbers.new other
        ≡ (if label == other then Some number else get nat_cmp numbers.old other)) }
{
    numbers.insert(label, number)?;
    Ok(())
}

/// The arm of an OpSwitch with a label.
#[cycle(sequences)]
fn switch_arm(
    alloc: Global,
    insts: &[Inst],
    tables: &Tables,
    arms: &[OpenArm],
    scope: Scope,
    head: SwitchHead,
    label: u32,
    place: u32,
) -> Result<ReadSequence, TreeFault>
    requires few { length insts.now < 2 ^ 32 }
    requires known { Knows insts.now tables.now }
    requires switches { AreSwitches insts.now arms.now }
    requires open { scope.depth < NESTING }
    requires last { IsOp SWITCH (slice_get insts.now (head.after - 1)) }
    requires behind { 0 < head.after }
    ensures { let others = without label (labels_of insts.now head) in
        let scope_of_arm = grammar.switch_arm (scope_in insts.now arms.now scope) head.merge others in
        IsSequence insts.now scope_of_arm (Some label) place result }
{
    let own = OpenArm {
        place: head.after - 1,
        merge: head.merge,
        label,
    };
    let all = with_arm(alloc, arms, own)?;
    let scope = scope::switch_arm(scope, head.merge);
    sequence(
        alloc,
        insts,
        tables,
        all.as_slice(),
        scope,
        Some(label),
        place,
    )
}

#[cycle(sequences)]
fn round(
    alloc: Global,
    insts: &[Inst],
    tables: &Tables,
    arms: &[OpenArm],
    scope: Scope,
    head: LoopHead,
) -> Result<ReadNode, TreeFault>
    requires few { length insts.now < 2 ^ 32 }
    requires known { Knows insts.now tables.now }
    requires switches { AreSwitches insts.now arms.now }
    requires open { scope.depth < NESTING }
    ensures { IsLoop insts.now (scope_in insts.now arms.now scope) head result }
{
    let LoopHead {
        header,
        merge,
        next,
        test,
        after,
    } = head;
    let of_test = scope::condition(scope, merge);
    let test = sequence(alloc, insts, tables, arms, of_test, Some(test), after)?;
    let of_inner = scope::body(scope, merge, next);
    let inner = sequence(alloc, insts, tables, arms, of_inner, test.next, test.place)?;
    let of_step = scope::continuing(scope, header);
    let step = sequence(alloc, insts, tables, arms, of_step, Some(next), inner.place)?;
    let place = step.place;
    let round = Round {
        header,
        merge,
        next,
        test: test.run,
        inner: inner.run,
        step: step.run,
    };
    let node = Node::Round(Boxed::new(alloc, round)?);
    Ok(ReadNode { node, place })
}
