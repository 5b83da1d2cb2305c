//! What becomes of an instruction, by what stands before it.
ghost use Rattle.std.specs.Prelude.{◌≡◌, ◌⊎◌, ◌+◌, ◌<◌, ◌≤◌, length};
ghost use Rattle.check_model.specs.Intervals.{intervals_of};
ghost use Rattle.check_model.specs.Validity.{IsValidList};
ghost use Rattle.change_model.specs.declared.fate.Fate.TheVariants.{Stays};
ghost use Rattle.change_model.specs.Passes as passes;
ghost use Rattle.spec_fold.specs.Facts.{AreFacts};
ghost use Rattle.spec_fold.specs.Walks.{IsWalk, plan_in, chain_fate, load_fate, loop_fate, other_fate};

use crate::facts::Facts;
use crate::inputs::{is_zero_input, root_of};
use crate::loops::leaving_to;
use crate::phis::phi_fate;
use crate::results::operation_fate;
use crate::scalars::is_behind;
use crate::walk::Walk;
use crate::ways::{chosen_way, has_one_way, switched_way, way_behind};
use change_model::Fate;
use spirv_model::class::Class;
use spirv_model::{Inst, op};
use spv_rewrite::inst_at;
use spv_words::class_of;

/// What becomes of the instruction at a place: all stays outside of the function's blocks.
pub fn fate_found(facts: &Facts<'_>, walk: &Walk, place: usize) -> Fate
    requires facts { AreFacts facts.now }
    requires walk { IsWalk facts.now place walk.now }
    requires within { place < length facts.now.of.now.insts }
    ensures outside { (v : IsValidList facts.now.of.now)
        → (place ≤ v.derivation.before) ⊎ (v.derivation.after ≤ place) → result ≡ Stays }
    ensures inside { (v : IsValidList facts.now.of.now)
        → v.derivation.before < place → place < v.derivation.after
        → result ≡ passes.fate_found (intervals_of v.derivation) facts.now.of.now.insts facts.now.zeros.now
        (v.derivation.before + 1) (plan_in walk.now) place }
{
    let insts = facts.of.insts();
    if place <= facts.function || place + 1 >= insts.len() {
        return Fate::Stays;
    }
    fate_inside(facts, walk, place)
}

/// What becomes of an instruction of the function's blocks.
#[tactic(auto, unfolding(change_model::specs::Passes::fate_found))]
fn fate_inside(facts: &Facts<'_>, walk: &Walk, place: usize) -> Fate
    requires facts { AreFacts facts.now }
    requires walk { IsWalk facts.now place walk.now }
    requires within { place + 1 < length facts.now.of.now.insts }
    requires behind { facts.now.function < place }
    ensures { (v : IsValidList facts.now.of.now)
        → result ≡ passes.fate_found (intervals_of v.derivation) facts.now.of.now.insts facts.now.zeros.now
        (facts.now.function + 1) (plan_in walk.now) place }
{
    let inst = inst_at(facts.of.insts(), place);
    if inst.op == op::LABEL {
        return label_fate(facts, walk, place);
    }
    if walk.fate(place - 1) == Fate::Dead {
        return Fate::Dead;
    }
    fate_alive(facts, walk, place)
}

/// What becomes of an OpLabel: it stays where control comes to its block.
fn label_fate(facts: &Facts<'_>, walk: &Walk, place: usize) -> Fate
    requires facts { AreFacts facts.now }
    requires walk { IsWalk facts.now place walk.now }
    requires within { place < length facts.now.of.now.insts }
    requires behind { facts.now.function < place }
    ensures { result ≡ passes.label_fate (plan_in walk.now) facts.now.of.now.insts (facts.now.function + 1) place }
{
    let inst = inst_at(facts.of.insts(), place);
    if place - 1 == facts.function || walk.named.has(inst.word(0)) {
        Fate::Stays
    } else {
        Fate::Dead
    }
}

/// What becomes of another instruction of a block to which control comes.
fn fate_alive(facts: &Facts<'_>, walk: &Walk, place: usize) -> Fate
    requires facts { AreFacts facts.now }
    requires walk { IsWalk facts.now place walk.now }
    requires within { place + 1 < length facts.now.of.now.insts }
    ensures { (v : IsValidList facts.now.of.now)
        → result ≡ passes.fate_alive (intervals_of v.derivation) facts.now.of.now.insts facts.now.zeros.now
        (plan_in walk.now) place }
{
    let inst = inst_at(facts.of.insts(), place);
    match inst.op {
        op::PHI => phi_fate(facts, walk, place),
        op::LOAD => load_fate(facts, inst),
        op::ACCESS_CHAIN => chain_fate(facts, inst),
        op::SELECTION_MERGE => merge_fate(facts, walk, place),
        op::LOOP_MERGE => loop_fate(facts, inst),
        op::BRANCH_CONDITIONAL => branch_fate(facts, walk, place),
        op::SWITCH => switch_fate(facts, walk, place),
        _ => other_fate(facts, walk, place),
    }
}

fn other_fate(facts: &Facts<'_>, walk: &Walk, place: usize) -> Fate
    requires { place < length facts.now.of.now.insts }
    ensures { result ≡ other_fate facts.now.of.now.insts (plan_in walk.now) place }
{
    let inst = inst_at(facts.of.insts(), place);
    if matches!(class_of(inst.op), Some(Class::Scalar(_))) {
        operation_fate(facts.of, walk, place)
    } else {
        Fate::Stays
    }
}

/// What becomes of an OpLoad.
fn load_fate(facts: &Facts<'_>, inst: &Inst) -> Fate
    ensures { result ≡ load_fate facts.now.of.now.insts facts.now.zeros.now inst.now }
{
    if is_zero_input(facts.of, facts.zeros, root_of(facts.of, inst.word(2))) {
        Fate::Nulls
    } else {
        Fate::Stays
    }
}

/// What becomes of an OpAccessChain.
fn chain_fate(facts: &Facts<'_>, inst: &Inst) -> Fate
    ensures { result ≡ chain_fate facts.now.of.now.insts facts.now.zeros.now inst.now }
{
    if is_zero_input(facts.of, facts.zeros, inst.word(2)) {
        Fate::Unused
    } else {
        Fate::Stays
    }
}

/// What becomes of an OpSelectionMerge.
fn merge_fate(facts: &Facts<'_>, walk: &Walk, place: usize) -> Fate
    requires facts { AreFacts facts.now }
    requires walk { IsWalk facts.now place walk.now }
    requires within { place + 1 < length facts.now.of.now.insts }
    ensures { (v : IsValidList facts.now.of.now)
        → result ≡ passes.merge_fate (intervals_of v.derivation) facts.now.of.now.insts (plan_in walk.now) place }
{
    if walk.held.is_some() {
        return Fate::Stays;
    }
    match way_behind(facts, walk, place + 1) {
        Some(_) => Fate::Skips,
        None => Fate::Stays,
    }
}

/// What becomes of an OpLoopMerge.
fn loop_fate(facts: &Facts<'_>, inst: &Inst) -> Fate
    requires facts { AreFacts facts.now }
    ensures { result ≡ loop_fate facts.now.of.now.insts inst.now }
{
    if facts.left.has(inst.word(0)) {
        Fate::Skips
    } else {
        Fate::Stays
    }
}

/// What becomes of an OpBranchConditional: it may end a selection's header, or the condition sequence of a loop.
fn branch_fate(facts: &Facts<'_>, walk: &Walk, place: usize) -> Fate
    requires facts { AreFacts facts.now }
    requires walk { IsWalk facts.now place walk.now }
    requires within { place < length facts.now.of.now.insts }
    ensures { (v : IsValidList facts.now.of.now)
        → result ≡ passes.branch_fate (intervals_of v.derivation) facts.now.of.now.insts (plan_in walk.now) place }
{
    if !is_behind(op::SELECTION_MERGE, facts.of.insts(), place) {
        return test_fate(facts, place, walk.held);
    }
    if walk.fate(place.saturating_sub(1)) == Fate::Skips {
        return goes_to(chosen_way(facts.of, walk, place));
    }
    Fate::Stays
}

/// What becomes of the end of the condition sequence of a loop, where one with this merge block is left at once.
fn test_fate(facts: &Facts<'_>, place: usize, held: Option<u32>) -> Fate
    requires facts { AreFacts facts.now }
    requires within { place < length facts.now.of.now.insts }
    ensures { result ≡ passes.test_fate facts.now.of.now.insts place held }
{
    match held {
        Some(merge) if is_label(merge, leaving_to(facts.of, &facts.loops, place)) => Fate::Goes(
            merge,
        ),
        _ => Fate::Stays,
    }
}

pub fn is_label(label: u32, other: Option<u32>) -> bool
    ensures { result ≡ passes.is_label label other }
{
    match other {
        Some(other) => other == label,
        None => false,
    }
}

fn goes_to(way: Option<u32>) -> Fate
    ensures { result ≡ passes.goes_to way }
{
    match way {
        Some(label) => Fate::Goes(label),
        None => Fate::Stays,
    }
}

fn picks_one(way: Option<u32>) -> Fate
    ensures { result ≡ passes.picks_one way }
{
    match way {
        Some(label) => Fate::Picks(label),
        None => Fate::Stays,
    }
}

/// What becomes of an OpSwitch.
fn switch_fate(facts: &Facts<'_>, walk: &Walk, place: usize) -> Fate
    requires facts { AreFacts facts.now }
    requires walk { IsWalk facts.now place walk.now }
    requires within { place < length facts.now.of.now.insts }
    ensures { (v : IsValidList facts.now.of.now)
        → result ≡ passes.switch_fate (intervals_of v.derivation) facts.now.of.now.insts (plan_in walk.now) place }
{
    let insts = facts.of.insts();
    if walk.fate(place.saturating_sub(1)) == Fate::Skips {
        return goes_to(switched_way(facts.of, walk, place));
    }
    if walk.held.is_none() && !has_one_way(inst_at(insts, place)) {
        return picks_one(switched_way(facts.of, walk, place));
    }
    Fate::Stays
}
