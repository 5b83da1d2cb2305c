//! The numbers by which the specialization constants of a module are set.
ghost use Rattle.std.specs.Prelude.{◌≡◌, ℕ, IfOk, OnOk};
ghost use Rattle.std.specs.List.{list_any};
ghost use Rattle.std.specs.BTreeSet.{keys, contains};
ghost use Rattle.std.specs.Ordering.{nat_cmp};
ghost use Rattle.valid_model.specs.EarlierFacts.{has_spec_id};
ghost use Rattle.check_model.specs.Interfaces.{AreSpecIds};
ghost use Rattle.spv_check.specs.SpecIds.{AreInOrder, HasSpecIds, AddsSpecId};

use spirv_model::{Inst, Items, decoration, op};
use std::alloc::{AllocError, Global};
use std::collections::BTreeSet;

fn add_spec_id(spec_ids: &mut BTreeSet<u32>, inst: &Inst) -> Result<(), AllocError>
    ensures { OnOk result (AddsSpecId inst.now spec_ids.old spec_ids.new) }
{
    if inst.op != op::DECORATE || inst.word(1) != decoration::SPEC_ID {
        return Ok(());
    }
    spec_ids.insert(inst.word(2))?;
    Ok(())
}

fn spec_id_set(alloc: Global, insts: &[Inst]) -> Result<BTreeSet<u32>, AllocError>
    ensures { IfOk result (HasSpecIds insts.now) }
{
    let mut spec_ids = BTreeSet::new(alloc);
    for inst in insts {
        add_spec_id(&mut spec_ids, inst)?;
    }
    Ok(spec_ids)
}

/// The numbers of the set, in ascending order.
fn in_order(alloc: Global, mut spec_ids: BTreeSet<u32>) -> Result<Items<u32>, AllocError>
    ensures { IfOk result (AreInOrder spec_ids) }
{
    let mut ids = Items::new(alloc);
    if spec_ids.len() == 0 {
        return Ok(ids);
    }
    while let Some(id) = spec_ids.pop_first() {
        ids.push(id)?;
    }
    Ok(ids)
}

/// The numbers by which specialization constants are set, in ascending order.
pub fn spec_ids(alloc: Global, insts: &[Inst]) -> Result<Items<u32>, AllocError>
    ensures { IfOk result (AreSpecIds insts.now) }
{
    let set = spec_id_set(alloc, insts)?;
    in_order(alloc, set)
}
