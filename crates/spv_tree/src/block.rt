ghost use Rattle.std.specs.Prelude.{◌≡◌, ℕ, ◌+◌, ◌<◌, ◌≤◌, ◌^◌, List, [], length, IfOk};
ghost use Rattle.body_model.specs.Blocks as spec;
ghost use Rattle.body_model.specs.Classes as classes;
ghost use Rattle.spv_tree.specs.Barred.{AreBarred, with_barred};
ghost use Rattle.spv_tree.specs.Parts.{rest_from};

use crate::barred::{OpenArm, Targets, is_barred};
use crate::cases::has_equal_literals;
use crate::scope::Scope;
use body_model::{
    BlockEnd, End, LoopExits, LoopHead, Phis, SelectionHead, SequenceEnd, SwitchHead, TreeFault,
};
use limits::NESTING;
use spirv_model::class::Class;
use spirv_model::{Inst, op};
use spv_words::class_of;
use std::alloc::{AllocError, Global};

pub fn is_module_level(op: u16) -> bool
    ensures { result ≡ classes.is_module_level op }
{
    matches!(
        class_of(op),
        Some(
            Class::Setting
                | Class::TypeDeclaration
                | Class::Constant
                | Class::SpecConstant
                | Class::SpecConstantResult
                | Class::Undef
                | Class::Variable
        )
    )
}

fn is_plain(op: u16) -> bool
    ensures { result ≡ classes.is_plain op }
{
    matches!(
        class_of(op),
        Some(Class::Undef | Class::Memory | Class::Composite | Class::Scalar(_))
    )
}

fn is_terminator(op: u16) -> bool
    ensures { result ≡ classes.is_terminator op }
{
    matches!(class_of(op), Some(Class::Terminator))
}

/// Whether these instructions of a block lead to OpLoopMerge.
fn leads_to_loop(rest: &[Inst]) -> bool
    ensures { result ≡ spec.leads_to_loop rest.now }
{
    let mut rest = rest;
    while let Some((inst, after)) = rest.split_first() {
        if inst.op != op::PHI && inst.op != op::VARIABLE && !is_plain(inst.op) {
            return inst.op == op::LOOP_MERGE;
        }
        rest = after;
    }
    false
}

fn begins_with(label: u32, rest: &[Inst]) -> bool
    ensures { result ≡ spec.begins_with label rest.now }
{
    let Some((inst, _)) = rest.split_first() else {
        return false;
    };
    inst.op == op::LABEL && inst.word(0) == label
}

fn is_label(known: Option<u32>, label: u32) -> bool
    ensures { result ≡ spec.is_label known label }
{
    match known {
        None => false,
        Some(known) => known == label,
    }
}

fn loop_exit_to(exits: Option<LoopExits>, label: u32) -> Option<End>
    ensures { result ≡ spec.loop_exit_to exits label }
{
    let exits = exits?;
    if exits.merge == label {
        return Some(End::Break);
    }
    if exits.next == label {
        return Some(End::Continue);
    }
    None
}

/// How OpBranch to a label ends a sequence, where it may.
fn exit_to(scope: Scope, label: u32) -> Option<End>
    ensures { result ≡ spec.exit_to (with_barred scope []) label }
{
    if is_label(scope.merge, label) {
        return Some(End::Merge);
    }
    if is_label(scope.leave, label) {
        return Some(End::Leave);
    }
    if is_label(scope.header, label) {
        return Some(End::Back);
    }
    loop_exit_to(scope.exits, label)
}

/// The block at a place is its sequence's last.
fn last_block(end: End, next: Option<u32>, place: u32) -> BlockEnd
    requires { place + 1 < 2 ^ 32 }
    ensures { result ≡ spec.last_block end next place }
{
    BlockEnd::Ends(SequenceEnd {
        end,
        next,
        after: place + 1,
    })
}

fn branch_end(exit: Option<End>, stands_next: bool, place: u32) -> BlockEnd
    requires { place + 1 < 2 ^ 32 }
    ensures { result ≡ spec.branch_end exit stands_next place }
{
    match exit {
        Some(end) => last_block(end, None, place),
        None if stands_next => BlockEnd::GoesOn(place + 1),
        None => BlockEnd::Broken(TreeFault::BadExit(place)),
    }
}

fn branch(
    targets: &Targets,
    arms: &[OpenArm],
    scope: Scope,
    label: u32,
    rest: &[Inst],
    place: u32,
) -> BlockEnd
    requires { place + 1 < 2 ^ 32 }
    ensures { (barred : List ℕ) → AreBarred targets.now arms.now barred
        → result ≡ spec.branch (with_barred scope barred) label rest.now place }
{
    if is_barred(targets, arms, label) {
        return BlockEnd::Broken(TreeFault::BadExit(place));
    }
    branch_end(exit_to(scope, label), begins_with(label, rest), place)
}

/// OpBranchConditional without a merge instruction: it ends a condition sequence.
fn test_end(merge: Option<u32>, cond: u32, on_true: u32, on_false: u32, place: u32) -> BlockEnd
    requires { place + 1 < 2 ^ 32 }
    ensures { result ≡ spec.test_end merge cond on_true on_false place }
{
    let Some(merge) = merge else {
        return BlockEnd::Broken(TreeFault::BadMerge(place));
    };
    if on_true == on_false {
        return BlockEnd::Broken(TreeFault::BadMerge(place));
    }
    if on_false == merge {
        let end = End::Test {
            cond,
            on_true: true,
        };
        return last_block(end, Some(on_true), place);
    }
    if on_true == merge {
        let end = End::Test {
            cond,
            on_true: false,
        };
        return last_block(end, Some(on_false), place);
    }
    BlockEnd::Broken(TreeFault::BadMerge(place))
}

fn invocation_end(may_end: bool, end: End, place: u32) -> BlockEnd
    requires { place + 1 < 2 ^ 32 }
    ensures { result ≡ spec.invocation_end may_end end place }
{
    if !may_end {
        return BlockEnd::Broken(TreeFault::BadExit(place));
    }
    last_block(end, None, place)
}

/// A terminator without a merge instruction, or anything else that no block has.
fn terminator_end(
    targets: &Targets,
    arms: &[OpenArm],
    scope: Scope,
    inst: &Inst,
    rest: &[Inst],
    place: u32,
) -> BlockEnd
    requires { place + 1 < 2 ^ 32 }
    ensures { (barred : List ℕ) → AreBarred targets.now arms.now barred
        → result ≡ spec.terminator_end (with_barred scope barred) inst.now rest.now place }
{
    match inst.op {
        op::BRANCH => branch(targets, arms, scope, inst.word(0), rest, place),
        op::BRANCH_CONDITIONAL => test_end(
            scope.test,
            inst.word(0),
            inst.word(1),
            inst.word(2),
            place,
        ),
        op::SWITCH => BlockEnd::Broken(TreeFault::BadMerge(place)),
        op::RETURN | op::UNREACHABLE => invocation_end(scope.may_end, End::Return, place),
        op::KILL => invocation_end(scope.may_end, End::Kill, place),
        _ => BlockEnd::Broken(TreeFault::BadBlock(place)),
    }
}

/// What stands behind a merge instruction isn't the terminator that it wants.
fn unmerged(scope: Scope, rest: &[Inst], place: u32) -> BlockEnd
    requires { place + 1 < 2 ^ 32 }
    ensures { result ≡ spec.unmerged (with_barred scope []) rest.now place }
{
    match rest.split_first() {
        Some((inst, _)) if is_terminator(inst.op) => {
            BlockEnd::Broken(TreeFault::BadMerge(place))
        }
        _ if scope.depth >= NESTING => BlockEnd::Broken(TreeFault::TooDeep(place)),
        _ => BlockEnd::Broken(TreeFault::BadBlock(place + 1)),
    }
}

/// OpSelectionMerge with OpBranchConditional behind it.
fn selection_head(scope: Scope, merge: u32, inst: &Inst, place: u32) -> BlockEnd
    requires { place + 2 < 2 ^ 32 }
    ensures { result ≡ spec.selection_head (with_barred scope []) merge inst.now.words place }
{
    if scope.depth >= NESTING {
        return BlockEnd::Broken(TreeFault::TooDeep(place));
    }
    let on_true = inst.word(1);
    let on_false = inst.word(2);
    if on_true == on_false && on_true != merge {
        return BlockEnd::Broken(TreeFault::BadMerge(place + 1));
    }
    BlockEnd::Selects(SelectionHead {
        cond: inst.word(0),
        merge,
        on_true,
        on_false,
        after: place + 2,
    })
}

/// OpSelectionMerge with OpSwitch behind it.
fn switch_head(
    alloc: Global,
    scope: Scope,
    merge: u32,
    inst: &Inst,
    place: u32,
) -> Result<BlockEnd, AllocError>
    requires { place + 2 < 2 ^ 32 }
    ensures { IfOk result (λ end. end
        ≡ spec.switch_head (with_barred scope []) merge inst.now.words place) }
{
    if scope.depth >= NESTING {
        return Ok(BlockEnd::Broken(TreeFault::TooDeep(place)));
    }
    if has_equal_literals(alloc, inst.words.as_slice())? {
        return Ok(BlockEnd::Broken(TreeFault::BadMerge(place + 1)));
    }
    Ok(BlockEnd::Picks(SwitchHead {
        selector: inst.word(0),
        merge,
        default: inst.word(1),
        after: place + 2,
    }))
}

/// OpSelectionMerge and what stands behind it.
fn selection_end(
    alloc: Global,
    scope: Scope,
    merge: u32,
    rest: &[Inst],
    place: u32,
) -> Result<BlockEnd, AllocError>
    requires { place + 1 + length rest.now < 2 ^ 32 }
    ensures { IfOk result (λ end. end
        ≡ spec.selection_end (with_barred scope []) merge rest.now place) }
{
    let Some((inst, _)) = rest.split_first() else {
        return Ok(unmerged(scope, rest, place));
    };
    match inst.op {
        op::BRANCH_CONDITIONAL => Ok(selection_head(scope, merge, inst, place)),
        op::SWITCH => switch_head(alloc, scope, merge, inst, place),
        _ => Ok(unmerged(scope, rest, place)),
    }
}

/// OpLoopMerge in the block with this label, with OpBranch to a label behind it.
fn loop_head(
    targets: &Targets,
    arms: &[OpenArm],
    scope: Scope,
    header: u32,
    inst: &Inst,
    test: u32,
    place: u32,
) -> BlockEnd
    requires { place + 2 < 2 ^ 32 }
    ensures { (barred : List ℕ) → AreBarred targets.now arms.now barred
        → result ≡ spec.loop_head (with_barred scope barred) header inst.now.words test place }
{
    if NESTING <= scope.depth {
        return BlockEnd::Broken(TreeFault::TooDeep(place));
    }
    if is_barred(targets, arms, test) {
        return BlockEnd::Broken(TreeFault::BadExit(place + 1));
    }
    BlockEnd::Loops(LoopHead {
        header,
        merge: inst.word(0),
        next: inst.word(1),
        test,
        after: place + 2,
    })
}

/// OpLoopMerge, and what stands behind it.
fn loop_end(
    targets: &Targets,
    arms: &[OpenArm],
    scope: Scope,
    header: u32,
    inst: &Inst,
    rest: &[Inst],
    place: u32,
) -> BlockEnd
    requires { place + 1 + length rest.now < 2 ^ 32 }
    ensures { (barred : List ℕ) → AreBarred targets.now arms.now barred
        → result ≡ spec.loop_end (with_barred scope barred) header inst.now.words rest.now place }
{
    if !scope.may_loop {
        return BlockEnd::Broken(TreeFault::BadMerge(place));
    }
    let Some((second, _)) = rest.split_first() else {
        return unmerged(scope, rest, place);
    };
    if second.op != op::BRANCH {
        return unmerged(scope, rest, place);
    }
    loop_head(targets, arms, scope, header, inst, second.word(0), place)
}

/// The merge instruction or the terminator of the block with this label.
#[tactic(auto, unfolding(body_model::specs::Blocks::last_part))]
fn last_part(
    alloc: Global,
    targets: &Targets,
    arms: &[OpenArm],
    scope: Scope,
    label: u32,
    inst: &Inst,
    rest: &[Inst],
    place: u32,
) -> Result<BlockEnd, AllocError>
    requires { place + 1 + length rest.now < 2 ^ 32 }
    ensures { (barred : List ℕ) → AreBarred targets.now arms.now barred
        → IfOk result (λ end. end ≡ spec.last_part (with_barred scope barred) label inst.now rest.now place) }
{
    match inst.op {
        op::SELECTION_MERGE => selection_end(alloc, scope, inst.word(0), rest, place),
        op::LOOP_MERGE => Ok(loop_end(targets, arms, scope, label, inst, rest, place)),
        _ => Ok(terminator_end(targets, arms, scope, inst, rest, place)),
    }
}

/// Whether phis may stand at the head of a block, which leads to OpLoopMerge or doesn't.
fn may_have_phis(phis: Phis, is_header: bool) -> bool
    ensures { result ≡ spec.may_have_phis phis is_header }
{
    match phis {
        Phis::Nowhere => false,
        Phis::AtHeader => is_header,
        Phis::Anywhere => true,
    }
}

/// How the block with this label ends, from the instruction after its OpLabel on.
fn rest_of_block(
    alloc: Global,
    targets: &Targets,
    arms: &[OpenArm],
    scope: Scope,
    label: u32,
    rest: &[Inst],
    place: u32,
) -> Result<BlockEnd, AllocError>
    requires { place + length rest.now < 2 ^ 32 }
    ensures { (barred : List ℕ) → AreBarred targets.now arms.now barred
        → IfOk result (λ end. end ≡ rest_from (with_barred scope barred) label rest.now place) }
{
    let mut phis = may_have_phis(scope.phis, leads_to_loop(rest));
    let mut variables = scope.first;
    let mut rest = rest;
    let mut place = place;
    while let Some((inst, after)) = rest.split_first() {
        if inst.op == op::PHI {
            if !phis {
                return Ok(BlockEnd::Broken(TreeFault::BadBlock(place)));
            }
            variables = false;
        } else if inst.op == op::VARIABLE {
            if !variables {
                return Ok(BlockEnd::Broken(TreeFault::BadBlock(place)));
            }
            phis = false;
        } else if is_plain(inst.op) {
            phis = false;
            variables = false;
        } else {
            return last_part(alloc, targets, arms, scope, label, inst, after, place);
        }
        rest = after;
        place += 1;
    }
    Ok(BlockEnd::Broken(TreeFault::BadBlock(place)))
}

/// How the block at a place ends. The instruction there is its OpLabel.
#[tactic(auto, unfolding(body_model::specs::Blocks::block_end))]
pub fn block_end(
    alloc: Global,
    insts: &[Inst],
    targets: &Targets,
    arms: &[OpenArm],
    scope: Scope,
    place: u32,
) -> Result<BlockEnd, AllocError>
    requires within { place ≤ length insts.now }
    requires few { length insts.now < 2 ^ 32 }
    ensures { (barred : List ℕ) → AreBarred targets.now arms.now barred
        → IfOk result (λ end. end ≡ spec.block_end insts.now (with_barred scope barred) place) }
{
    let (_, block) = insts.split_at(place as usize);
    let Some((first, rest)) = block.split_first() else {
        return Ok(BlockEnd::Broken(TreeFault::BadBlock(place)));
    };
    rest_of_block(alloc, targets, arms, scope, first.word(0), rest, place + 1)
}
