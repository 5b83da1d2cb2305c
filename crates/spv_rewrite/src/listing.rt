//! The list that a plan makes of a module's.
ghost use Rattle.std.specs.Prelude.{◌≡◌, ℕ, ◌-◌, ◌≤◌, ◌++◌, Bool, length, take, IfOk, OnOk};
ghost use Rattle.std.specs.List.{flat_map};
ghost use Rattle.change_model.specs.Folding.{function_at};
ghost use Rattle.change_model.specs.Plans.{changed, constant_at, later_places, written_at, plan_of};
ghost use Rattle.spv_rewrite.specs.Changes.{IsOfModule, plan_in};

use crate::change::{Change, inst_at};
use crate::constants::push_constant;
use crate::ends::{block_ends, next_label};
use crate::writing::push_written;
use change_model::Fate;
use spirv_model::{Inst, Items, op};
use spv_check::Module;
use std::alloc::{AllocError, Global};

/// The instructions that a plan makes of a module's: the module's level, the constants that results become behind it, and what is
/// written for the function. The plan's fates are by place, and an instruction past their end stays; its names are by id, and an
/// id past their end keeps its own. Whether the module with these instructions is valid is for the plan.
///
/// The time is linear in the words of the module. The one error is want of memory.
pub fn rewrite(
    alloc: Global,
    of: &Module,
    fates: &[Fate],
    names: &[u32],
) -> Result<Items<Inst>, AllocError>
    ensures { IfOk result (λ list. (is_unread : ℕ → Bool)
        → list ≡ changed (plan_of fates.now names.now is_unread) of.now.insts) }
{
    let insts = of.insts();
    let ends = block_ends(alloc, of.bound(), insts)?;
    let change = Change {
        insts,
        fates,
        names,
        ends,
    };
    changed_list(alloc, &change)
}

/// The list that a plan makes.
#[tactic(auto, unfolding(change_model::specs::Plans::changed))]
fn changed_list(alloc: Global, of: &Change<'_>) -> Result<Items<Inst>, AllocError>
    requires { IsOfModule of.now }
    ensures { IfOk result (λ list. list ≡ changed (plan_in of.now) of.now.insts.now) }
{
    let first = function_place(of.insts);
    let mut list = Items::new(alloc);
    push_level(alloc, &mut list, of.insts, first)?;
    push_constants(alloc, &mut list, of, first)?;
    push_function(alloc, &mut list, of, first)?;
    Ok(list)
}

/// The place of OpFunction, or the number of instructions where there is none.
pub fn function_place(insts: &[Inst]) -> usize
    ensures place { result ≡ function_at insts.now }
    ensures within { result ≤ length insts.now }
{
    for place in 0..insts.len() {
        let inst = inst_at(insts, place);
        if inst.op == op::FUNCTION {
            return place;
        }
    }
    insts.len()
}

/// Pushes the instructions before a place.
fn push_level(
    alloc: Global,
    list: &mut Items<Inst>,
    insts: &[Inst],
    first: usize,
) -> Result<(), AllocError>
    requires { first ≤ length insts.now }
    ensures { OnOk result (list.new ≡ list.old ++ take first insts.now) }
{
    for place in 0..first {
        let inst = inst_at(insts, place);
        let words = Items::from_slice(alloc, inst.words.as_slice())?;
        list.push(Inst { op: inst.op, words })?;
    }
    Ok(())
}

/// Pushes the constants that results of the function become.
fn push_constants(
    alloc: Global,
    list: &mut Items<Inst>,
    of: &Change<'_>,
    first: usize,
) -> Result<(), AllocError>
    requires first { first ≡ function_at of.now.insts.now }
    requires within { first ≤ length of.now.insts.now }
    ensures { OnOk result (list.new ≡ list.old
        ++ flat_map (constant_at (plan_in of.now) of.now.insts.now) (later_places of.now.insts.now)) }
{
    for place in first..of.insts.len() {
        push_constant(alloc, list, of.inst(place), of.fate(place))?;
    }
    Ok(())
}

/// Pushes what is written for the function.
fn push_function(
    alloc: Global,
    list: &mut Items<Inst>,
    of: &Change<'_>,
    first: usize,
) -> Result<(), AllocError>
    requires known { IsOfModule of.now }
    requires first { first ≡ function_at of.now.insts.now }
    requires within { first ≤ length of.now.insts.now }
    ensures { OnOk result (list.new ≡ list.old
        ++ flat_map (written_at (plan_in of.now) of.now.insts.now) (later_places of.now.insts.now)) }
{
    let mut label = 0;
    for place in first..of.insts.len() {
        push_written(alloc, list, of, place, label)?;
        label = next_label(label, of.inst(place));
    }
    Ok(())
}
