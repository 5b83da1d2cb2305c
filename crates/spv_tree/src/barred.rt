//! Which labels no OpBranch may lead to: those of the other arms of each OpSwitch in whose arm it stands.
ghost use Rattle.std.specs.Prelude.{◌≡◌, ℕ, ◌==◌, ◌&&◌, ◌||◌, ◌<◌, ◌^◌, ◌∷◌, length, IfOk, OnOk};
ghost use Rattle.body_model.specs.Switches.{is_among};
ghost use Rattle.spv_tree.specs.Barred as spec;
ghost use Rattle.spv_tree.specs.Barred.{KnowsTargets, has_pair, leads_to};

use crate::cases::{SwitchCase, switch_cases};
use spirv_model::{Inst, op};
use std::alloc::{AllocError, Global};
use std::collections::BTreeSet;

/// The targets of each OpSwitch, with its place.
pub type Targets = BTreeSet<(u32, u32)>;

/// An arm that is being read: the place of its OpSwitch, the merge block of that, and the arm's own label.
#[derive(Clone, Copy, Drop)]
pub struct OpenArm {
    pub place: u32,
    pub merge: u32,
    pub label: u32,
}

pub fn switch_targets(alloc: Global, insts: &[Inst]) -> Result<Targets, AllocError>
    requires { length insts.now < 2 ^ 32 }
    ensures { IfOk result (λ targets. KnowsTargets insts.now targets) }
{
    let mut targets = BTreeSet::new(alloc);
    let mut place = 0;
    for inst in insts {
        add_targets(alloc, &mut targets, place, inst)?;
        place += 1;
    }
    Ok(targets)
}

/// The targets of an instruction at a place, if it is an OpSwitch.
fn add_targets(
    alloc: Global,
    targets: &mut Targets,
    place: u32,
    inst: &Inst,
) -> Result<(), AllocError>
    ensures { OnOk result ((a b : ℕ) → has_pair targets.new a b
        ≡ (has_pair targets.old a b || ((place == a) && leads_to inst.now b))) }
{
    if inst.op != op::SWITCH {
        return Ok(());
    }
    let cases = switch_cases(alloc, inst.words.as_slice())?;
    add_pair(targets, place, inst.word(1))?;
    add_cases(targets, place, cases.as_slice())
}

fn add_cases(targets: &mut Targets, place: u32, cases: &[SwitchCase]) -> Result<(), AllocError>
    ensures { OnOk result ((a b : ℕ) → has_pair targets.new a b
        ≡ (has_pair targets.old a b || ((place == a) && is_among b (spec.targets cases.now)))) }
{
    for case in cases {
        add_pair(targets, place, case.target)?;
    }
    Ok(())
}

fn add_pair(targets: &mut Targets, place: u32, label: u32) -> Result<(), AllocError>
    ensures { OnOk result ((a b : ℕ) → has_pair targets.new a b
        ≡ (has_pair targets.old a b || ((place == a) && (label == b)))) }
{
    targets.insert((place, label))?;
    Ok(())
}

/// Whether the label is that of another arm of the OpSwitch of one of these arms.
pub fn is_barred(targets: &Targets, arms: &[OpenArm], label: u32) -> bool
    ensures { result ≡ spec.is_barred targets.now arms.now label }
{
    for arm in arms {
        if label != arm.label && label != arm.merge && targets.contains(&(arm.place, label)) {
            return true;
        }
    }
    false
}

/// The arms with one more in front.
pub fn with_arm(alloc: Global, arms: &[OpenArm], arm: OpenArm) -> Result<Vec<OpenArm>, AllocError>
    ensures { IfOk result (λ all. all.items ≡ arm ∷ arms.now) }
{
    let mut all = Vec::new(alloc);
    all.push(arm)?;
    for other in arms {
        all.push(*other)?;
    }
    Ok(all)
}
