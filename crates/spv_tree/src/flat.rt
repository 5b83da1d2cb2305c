ghost use Rattle.std.specs.Prelude.{◌≡◌, ◌++◌, IfOk, OnOk};
ghost use Rattle.spv_tree.specs.Trees.{IsTreeOf, function_blocks};
ghost use Rattle.spv_tree.specs.Listed.{run_list, node_list, choice_list, pick_list, round_list, way_list, of_block};

use crate::tree::{Block, Body, Choice, Node, Pick, Round, Run};
use spirv_model::{Inst, Items};
use std::alloc::{AllocError as Memory, Global};

/// The instructions of a tree's blocks, from the first label to the last terminator.
pub fn flatten(alloc: Global, body: &Body, insts: &[Inst]) -> Result<Vec<Inst>, Memory>
    requires { IsTreeOf insts.now body.now }
    ensures { IfOk result (λ list. list.items ≡ function_blocks insts.now) }
{
    let mut list = Vec::new(alloc);
    add_run(alloc, &body.run, insts, &mut list)?;
    Ok(list)
}

#[cycle(flat)]
fn add_run(alloc: Global, run: &Run, insts: &[Inst], list: &mut Vec<Inst>) -> Result<(), Memory>
    ensures { OnOk result (list.new.items ≡ list.old.items ++ run_list insts.now run.now) }
{
    for node in run.nodes.as_slice() {
        add_node(alloc, node, insts, list)?;
    }
    Ok(())
}

#[cycle(flat)]
fn add_node(alloc: Global, node: &Node, insts: &[Inst], list: &mut Vec<Inst>) -> Result<(), Memory>
    ensures { OnOk result (list.new.items ≡ list.old.items ++ node_list insts.now node.now) }
{
    match node {
        Node::Block(block) => add_block(alloc, *block, insts, list),
        Node::Choice(choice) => add_choice(alloc, choice.get(), insts, list),
        Node::Pick(pick) => add_pick(alloc, pick.get(), insts, list),
        Node::Round(round) => add_round(alloc, round.get(), insts, list),
    }
}

#[cycle(flat)]
fn add_choice(
    alloc: Global,
    choice: &Choice,
    insts: &[Inst],
    list: &mut Vec<Inst>,
) -> Result<(), Memory>
    ensures { OnOk result (list.new.items ≡ list.old.items ++ choice_list insts.now choice.now) }
{
    add_way(alloc, &choice.yes, insts, list)?;
    add_way(alloc, &choice.no, insts, list)?;
    Ok(())
}

#[cycle(flat)]
fn add_pick(alloc: Global, pick: &Pick, insts: &[Inst], list: &mut Vec<Inst>) -> Result<(), Memory>
    ensures { OnOk result (list.new.items ≡ list.old.items ++ pick_list insts.now pick.now) }
{
    for run in pick.arms.as_slice() {
        add_run(alloc, run, insts, list)?;
    }
    Ok(())
}

#[cycle(flat)]
fn add_round(
    alloc: Global,
    round: &Round,
    insts: &[Inst],
    list: &mut Vec<Inst>,
) -> Result<(), Memory>
    ensures { OnOk result (list.new.items ≡ list.old.items ++ round_list insts.now round.now) }
{
    add_run(alloc, &round.test, insts, list)?;
    add_run(alloc, &round.inner, insts, list)?;
    add_run(alloc, &round.step, insts, list)?;
    Ok(())
}

#[cycle(flat)]
fn add_way(
    alloc: Global,
    way: &Option<Run>,
    insts: &[Inst],
    list: &mut Vec<Inst>,
) -> Result<(), Memory>
    ensures { OnOk result (list.new.items ≡ list.old.items ++ way_list insts.now way.now) }
{
    match way {
        None => Ok(()),
        Some(run) => add_run(alloc, run, insts, list),
    }
}

/// Copies of the instructions of a block.
fn add_block(
    alloc: Global,
    block: Block,
    insts: &[Inst],
    list: &mut Vec<Inst>,
) -> Result<(), Memory>
    ensures { OnOk result (list.new.items ≡ list.old.items ++ of_block insts.now block) }
{
    let first = (block.first as usize).min(insts.len());
    let (_, rest) = insts.split_at(first);
    let count = (block.count as usize).min(rest.len());
    let (own, _) = rest.split_at(count);
    for inst in own {
        let words = Items::from_slice(alloc, inst.words.as_slice())?;
        list.push(Inst { op: inst.op, words })?;
    }
    Ok(())
}
