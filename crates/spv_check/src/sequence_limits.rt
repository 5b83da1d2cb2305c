//! How far down what a block defines is visible (SPIR-V specification, section 2.16 "Validation Rules").
ghost use Rattle.std.specs.Prelude.{◌≡◌, ◌<◌, ◌^◌, ◌++◌, length, replicate, IfOk, OnOk};
ghost use Rattle.spv_tree.specs.Trees.{IsTreeOf};
ghost use Rattle.spv_check.specs.SequenceLimits.{AreLimits, node_mark, run_front, run_end, choice_limits, pick_limits, round_limits, run_limits, way_limits};

use spv_tree::{Body, Choice, Inst, Memory, Node, Pick, Round, Run};
use std::alloc::Global;

/// For each place of the list the end of the innermost sequence that has it, or the number of the instructions where no
/// sequence has it: what is defined at a place is visible behind it, below that end.
pub fn limits_of(alloc: Global, body: &Body, insts: &[Inst]) -> Result<Vec<u32>, Memory>
    requires tree { IsTreeOf insts.now body.now }
    requires few { length insts.now < 2 ^ 32 }
    ensures { IfOk result (λ limits. AreLimits insts.now limits.items) }
{
    let past = insts.len() as u32;
    let mut limits = Vec::new(alloc);
    add_places(first_place(&body.run), past, &mut limits)?;
    add_run(&body.run, &mut limits)?;
    let left = insts.len().saturating_sub(limits.len());
    add_places(left as u32, past, &mut limits)?;
    Ok(limits)
}

/// A sequence's first place.
fn first_place(run: &Run) -> u32
    ensures { result ≡ run_front run.now }
{
    match run.nodes.as_slice().first() {
        Some(node) => first_of(node),
        None => 0,
    }
}

fn first_of(node: &Node) -> u32
    ensures { result ≡ (node_mark node.now).first }
{
    match node {
        Node::Block(block) => block.first,
        Node::Choice(_) => 0,
        Node::Pick(_) => 0,
        Node::Round(_) => 0,
    }
}

/// The place behind a sequence's last block.
fn end_of(run: &Run) -> u32
    ensures { result ≡ run_end run.now }
{
    match run.nodes.as_slice().last() {
        Some(node) => end_of_node(node),
        None => 0,
    }
}

fn end_of_node(node: &Node) -> u32
    ensures { result ≡ (node_mark node.now).end }
{
    match node {
        Node::Block(block) => block.first.saturating_add(block.count),
        Node::Choice(_) => 0,
        Node::Pick(_) => 0,
        Node::Round(_) => 0,
    }
}

#[cycle(limits)]
fn add_run(run: &Run, limits: &mut Vec<u32>) -> Result<(), Memory>
    ensures { OnOk result (limits.new.items ≡ limits.old.items ++ run_limits run.now) }
{
    let end = end_of(run);
    for node in run.nodes.as_slice() {
        add_node(node, end, limits)?;
    }
    Ok(())
}

#[cycle(limits)]
fn add_node(node: &Node, end: u32, limits: &mut Vec<u32>) -> Result<(), Memory>
    ensures { OnOk result (limits.new.items ≡ limits.old.items ++ (node_mark node.now).limits end) }
{
    match node {
        Node::Block(block) => add_places(block.count, end, limits),
        Node::Choice(choice) => add_choice(choice.get(), limits),
        Node::Pick(pick) => add_pick(pick.get(), limits),
        Node::Round(round) => add_round(round.get(), limits),
    }
}

#[cycle(limits)]
fn add_choice(choice: &Choice, limits: &mut Vec<u32>) -> Result<(), Memory>
    ensures { OnOk result (limits.new.items ≡ limits.old.items ++ choice_limits choice.now) }
{
    add_way(&choice.yes, limits)?;
    add_way(&choice.no, limits)?;
    Ok(())
}

#[cycle(limits)]
fn add_pick(pick: &Pick, limits: &mut Vec<u32>) -> Result<(), Memory>
    ensures { OnOk result (limits.new.items ≡ limits.old.items ++ pick_limits pick.now) }
{
    for run in pick.arms.as_slice() {
        add_run(run, limits)?;
    }
    Ok(())
}

#[cycle(limits)]
fn add_round(round: &Round, limits: &mut Vec<u32>) -> Result<(), Memory>
    ensures { OnOk result (limits.new.items ≡ limits.old.items ++ round_limits round.now) }
{
    add_run(&round.test, limits)?;
    add_run(&round.inner, limits)?;
    add_run(&round.step, limits)?;
    Ok(())
}

#[cycle(limits)]
fn add_way(way: &Option<Run>, limits: &mut Vec<u32>) -> Result<(), Memory>
    ensures { OnOk result (limits.new.items ≡ limits.old.items ++ way_limits way.now) }
{
    match way {
        None => Ok(()),
        Some(run) => add_run(run, limits),
    }
}

/// The limit of so many places more.
fn add_places(count: u32, limit: u32, limits: &mut Vec<u32>) -> Result<(), Memory>
    ensures { OnOk result (limits.new.items ≡ limits.old.items ++ replicate count limit) }
{
    for _ in 0..count {
        limits.push(limit)?;
    }
    Ok(())
}
