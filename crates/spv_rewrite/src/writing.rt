//! What is written for the instructions of a function.
ghost use Rattle.std.specs.Prelude.{◌≡◌, ◌<◌, ◌++◌, length, take, IfOk, OnOk};
ghost use Rattle.valid_model.specs.Definitions.{inst_at};
ghost use Rattle.check_model.specs.Branches.{label_behind};
ghost use Rattle.change_model.specs.Plans.{block_at, kept_at, switch_to, branch_to, written_at};
ghost use Rattle.spv_rewrite.specs.Changes.{IsOfModule, plan_in};

use crate::change::{Change, name_of};
use crate::constants::inst_with;
use crate::phi_pairs::phi_words;
use crate::renaming::renamed_words;
use change_model::Fate;
use spirv_model::{Inst, Items, op};
use std::alloc::{AllocError, Global};

/// Pushes what is written for the instruction at a place, in the block with this label.
#[tactic(auto, unfolding(change_model::specs::Plans::written_at))]
pub fn push_written(
    alloc: Global,
    list: &mut Items<Inst>,
    of: &Change<'_>,
    place: usize,
    label: u32,
) -> Result<(), AllocError>
    requires known { IsOfModule of.now }
    requires within { place < length of.now.insts.now }
    requires label { label ≡ block_at of.now.insts.now place }
    ensures { OnOk result (list.new
        ≡ list.old ++ written_at (plan_in of.now) of.now.insts.now place) }
{
    match of.fate(place) {
        Fate::Stays => {
            let kept = kept(alloc, of, place, label)?;
            list.push(kept)
        }
        Fate::Goes(target) => {
            let branch = inst_with(alloc, op::BRANCH, &[target])?;
            list.push(branch)
        }
        Fate::Picks(target) => {
            let selector = name_of(of.names, of.inst(place).word(0));
            let switch = inst_with(alloc, op::SWITCH, &[selector, target])?;
            list.push(switch)
        }
        _ => Ok(()),
    }
}

/// The instruction at a place, in the block with this label, where it stays.
fn kept(alloc: Global, of: &Change<'_>, place: usize, label: u32) -> Result<Inst, AllocError>
    requires known { IsOfModule of.now }
    requires within { place < length of.now.insts.now }
    requires label { label ≡ block_at of.now.insts.now place }
    ensures { IfOk result (λ inst. inst
        ≡ kept_at (plan_in of.now) of.now.insts.now place (inst_at of.now.insts.now place)) }
{
    let inst = of.inst(place);
    if inst.op == op::PHI {
        let words = phi_words(alloc, of, label, inst)?;
        return Ok(Inst { op: inst.op, words });
    }
    let words = renamed_words(alloc, of.names, inst)?;
    Ok(Inst { op: inst.op, words })
}
