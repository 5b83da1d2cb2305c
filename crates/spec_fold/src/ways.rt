//! Where selections and OpSwitches lead, as far as it is known.
ghost use Rattle.std.specs.Prelude.{◌≡◌, ◌+◌, ◌-◌, ◌<◌, length};
ghost use Rattle.spirv_model.specs.declared.op.TheConstants as opcode;
ghost use Rattle.valid_model.specs.Definitions as definitions;
ghost use Rattle.check_model.specs.Intervals.{intervals_of};
ghost use Rattle.check_model.specs.Validity.{IsValidList};
ghost use Rattle.change_model.specs.Passes as passes;
ghost use Rattle.spec_fold.specs.Facts.{AreFacts};
ghost use Rattle.spec_fold.specs.Walks.{plan_in};

use crate::facts::Facts;
use crate::scalars::{chosen_target, switched_target};
use crate::walk::{Walk, known};
use spirv_model::{Inst, op};
use spv_check::Module;
use spv_rewrite::inst_at;

/// Where a selection's branch at a place leads, if that is known.
pub fn chosen_way(of: &Module, walk: &Walk, place: usize) -> Option<u32>
    requires { place < length of.now.insts }
    ensures { result ≡ passes.chosen_way (plan_in walk.now) of.now.insts place }
{
    let inst = inst_at(of.insts(), place);
    chosen_target(known(of, walk, place, inst.word(0)), inst)
}

/// Where an OpSwitch at a place leads, if that is known.
pub fn switched_way(of: &Module, walk: &Walk, place: usize) -> Option<u32>
    requires { place < length of.now.insts }
    ensures { result ≡ passes.switched_way (plan_in walk.now) of.now.insts place }
{
    let inst = inst_at(of.insts(), place);
    switched_target(known(of, walk, place, inst.word(0)), inst)
}

/// Whether an OpSwitch has no literals.
pub fn has_one_way(inst: &Inst) -> bool
    ensures { result ≡ passes.has_one_way inst.now }
{
    inst.words.as_slice().len() == 2
}

/// Whether an OpSwitch without literals at a place may become OpBranch: its arm isn't left from within.
fn may_become_branch(facts: &Facts<'_>, place: usize) -> bool
    requires facts { AreFacts facts.now }
    requires within { place < length facts.now.of.now.insts }
    requires switch { (definitions.inst_at facts.now.of.now.insts place).op ≡ opcode.SWITCH }
    ensures { (v : IsValidList facts.now.of.now)
        → result ≡ passes.may_become_branch (intervals_of v.derivation) facts.now.of.now.insts place }
{
    let insts = facts.of.insts();
    if !has_one_way(inst_at(insts, place)) {
        return false;
    }
    !facts
        .within
        .has(inst_at(insts, place.saturating_sub(1)).word(0))
}

/// Where the branch behind a merge instruction always leads, if that instruction may go.
pub fn way_behind(facts: &Facts<'_>, walk: &Walk, place: usize) -> Option<u32>
    requires facts { AreFacts facts.now }
    requires within { place < length facts.now.of.now.insts }
    ensures { (v : IsValidList facts.now.of.now)
        → result ≡ passes.way_behind (intervals_of v.derivation) facts.now.of.now.insts (plan_in walk.now) place }
{
    let inst = inst_at(facts.of.insts(), place);
    if inst.op == op::BRANCH_CONDITIONAL {
        return chosen_way(facts.of, walk, place);
    }
    if inst.op == op::SWITCH && may_become_branch(facts, place) {
        return switched_way(facts.of, walk, place);
    }
    None
}
