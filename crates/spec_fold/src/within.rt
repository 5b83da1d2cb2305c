//! Arms of an OpSwitch without literals that are left from within (SPIR-V specification, section 2.11 "Structured Control
//! Flow").
ghost use Rattle.std.specs.Prelude.{◌≡◌, ◌<◌, [], ◌∷◌, map, length, IfOk, OnOk};
ghost use Rattle.body_model.specs.Switches.{cases_in};
ghost use Rattle.body_model.specs.Switches as switches;
ghost use Rattle.body_model.specs.Targets.{targets};
ghost use Rattle.spv_check.specs.SequenceLimits.{AreLimits};
ghost use Rattle.spec_fold.specs.Facts.{AddsArm, AreLeftWithin, leaves_to};
ghost use Rattle.spec_fold.specs.Facts as facts;
ghost use Rattle.spec_fold.specs.Sets.{AddsThose};

use crate::marks::Marks;
use crate::scalars::definition_of;
use id_table::IdTable;
use spirv_model::{Inst, op};
use spv_check::Module;
use spv_rewrite::inst_at;
use std::alloc::{AllocError, Global};

/// The arm of an OpSwitch without literals.
#[derive(Clone, Copy, Drop)]
pub struct Arm {
    /// The merge block of the selection.
    pub merge: u32,
    pub first: u32,
    /// Its last place.
    pub last: u32,
}

/// The merge blocks of the OpSwitches without literals in whose arm a nested sequence is left to the merge block. The limits
/// are the ends of the sequences, by the places that they have.
pub fn left_within(alloc: Global, of: &Module, limits: &[u32]) -> Result<Marks, AllocError>
    requires { AreLimits of.now.insts limits.now }
    ensures { IfOk result (AreLeftWithin of.now) }
{
    let insts = of.insts();
    let mut arms = IdTable::new(alloc, of.bound(), insts.len())?;
    for place in 0..insts.len() {
        add_arm(&mut arms, arm_at(of, limits, place))?;
    }
    let mut within = Marks::new(alloc, of.bound(), insts.len())?;
    for place in 0..insts.len() {
        add_exits(
            &mut within,
            &arms,
            inst_at(insts, place),
            place as u32,
            limits[place],
        )?;
    }
    Ok(within)
}

/// The arm of an OpSwitch without literals, if its default isn't its merge block.
fn arm_at(of: &Module, limits: &[u32], place: usize) -> Option<Arm>
    requires limits { AreLimits of.now.insts limits.now }
    requires within { place < length of.now.insts }
    ensures { result ≡ facts.arm_at of.now.insts limits.now place }
{
    let inst = inst_at(of.insts(), place);
    if place == 0 || inst.op != op::SWITCH || inst.words.as_slice().len() != 2 {
        return None;
    }
    let merge = inst_at(of.insts(), place - 1).word(0);
    if inst.word(1) == merge {
        return None;
    }
    let first = definition_of(of, inst.word(1))?;
    let last = limits[first as usize].saturating_sub(1);
    Some(Arm { merge, first, last })
}

fn add_arm(arms: &mut IdTable<Arm>, arm: Option<Arm>) -> Result<(), AllocError>
    ensures { OnOk result (AddsArm arm arms.old arms.new) }
{
    match arm {
        Some(arm) => arms.insert(arm.merge, arm),
        None => Ok(()),
    }
}

/// The merge blocks of arms to which an instruction leads from a nested sequence are in the set from now on.
#[tactic(auto, unfolding(body_model::specs::Targets::targets_by))]
fn add_exits(
    within: &mut Marks,
    arms: &IdTable<Arm>,
    inst: &Inst,
    place: u32,
    limit: u32,
) -> Result<(), AllocError>
    ensures { OnOk result (AddsThose (leaves_to arms.now place limit (targets inst.now)) within.old within.new) }
{
    match inst.op {
        op::BRANCH => add_exit(within, arms, inst.word(0), place, limit),
        op::BRANCH_CONDITIONAL => {
            add_exit(within, arms, inst.word(1), place, limit)?;
            add_exit(within, arms, inst.word(2), place, limit)
        }
        op::SWITCH => {
            add_exit(within, arms, inst.word(1), place, limit)?;
            add_cases(within, arms, inst.words_from(2), place, limit)
        }
        _ => Ok(()),
    }
}

fn add_cases(
    within: &mut Marks,
    arms: &IdTable<Arm>,
    cases: &[u32],
    place: u32,
    limit: u32,
) -> Result<(), AllocError>
    ensures { OnOk result (AddsThose (leaves_to arms.now place limit (map (λ (case : switches.Case). case.target) (cases_in cases.now)))
        within.old within.new) }
{
    let mut rest = cases;
    while let [_, target, after @ ..] = rest {
        add_exit(within, arms, *target, place, limit)?;
        rest = after;
    }
    Ok(())
}

fn add_exit(
    within: &mut Marks,
    arms: &IdTable<Arm>,
    target: u32,
    place: u32,
    limit: u32,
) -> Result<(), AllocError>
    ensures { OnOk result (AddsThose (leaves_to arms.now place limit (target ∷ [])) within.old within.new) }
{
    match arms.get(target) {
        Some(arm) if arm.first <= place && place < arm.last && limit <= arm.last => {
            within.add(target)
        }
        _ => Ok(()),
    }
}
