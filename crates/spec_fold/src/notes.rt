//! The labels that instructions name.
ghost use Rattle.std.specs.Prelude.{OnOk};
ghost use Rattle.body_model.specs.Switches.{is_among};
ghost use Rattle.body_model.specs.Targets.{targets};
ghost use Rattle.change_model.specs.PlanRules.{merge_labels};
ghost use Rattle.spec_fold.specs.Sets.{AddsThose};
ghost use Rattle.spec_fold.specs.Walks.{case_targets, merges_with, names_with};

use crate::marks::Marks;
use change_model::Fate;
use spirv_model::{Inst, op};
use std::alloc::AllocError;

/// The labels to which an instruction with this fate leads, and those that it names as a merge instruction that stays, are
/// in the set from now on.
pub fn note_labels(named: &mut Marks, fate: Fate, inst: &Inst) -> Result<(), AllocError>
    ensures { OnOk result (AddsThose (names_with fate inst.now) named.old named.new) }
{
    match fate {
        Fate::Dead => Ok(()),
        Fate::Goes(label) | Fate::Picks(label) => named.add(label),
        Fate::Stays => {
            note_targets(named, inst)?;
            note_merge(named, inst)
        }
        _ => note_targets(named, inst),
    }
}

#[tactic(auto, unfolding(body_model::specs::Targets::targets_by))]
fn note_targets(named: &mut Marks, inst: &Inst) -> Result<(), AllocError>
    ensures { OnOk result (AddsThose (λ label. is_among label (targets inst.now)) named.old named.new) }
{
    match inst.op {
        op::BRANCH => named.add(inst.word(0)),
        op::BRANCH_CONDITIONAL => {
            named.add(inst.word(1))?;
            named.add(inst.word(2))
        }
        op::SWITCH => {
            named.add(inst.word(1))?;
            note_cases(named, inst.words_from(2))
        }
        _ => Ok(()),
    }
}

fn note_cases(named: &mut Marks, cases: &[u32]) -> Result<(), AllocError>
    ensures { OnOk result (AddsThose (λ label. is_among label (case_targets cases.now)) named.old named.new) }
{
    let mut rest = cases;
    while let [_, target, after @ ..] = rest {
        named.add(*target)?;
        rest = after;
    }
    Ok(())
}

fn note_merge(named: &mut Marks, inst: &Inst) -> Result<(), AllocError>
    ensures { OnOk result (AddsThose (λ label. is_among label (merge_labels inst.now)) named.old named.new) }
{
    match inst.op {
        op::SELECTION_MERGE => named.add(inst.word(0)),
        op::LOOP_MERGE => {
            named.add(inst.word(0))?;
            named.add(inst.word(1))
        }
        _ => Ok(()),
    }
}

/// The merge block of an OpSelectionMerge that stays is in the set from now on.
pub fn note_selection(merges: &mut Marks, fate: Fate, inst: &Inst) -> Result<(), AllocError>
    ensures { OnOk result (AddsThose (merges_with fate inst.now) merges.old merges.new) }
{
    if fate == Fate::Stays && inst.op == op::SELECTION_MERGE {
        return merges.add(inst.word(0));
    }
    Ok(())
}
