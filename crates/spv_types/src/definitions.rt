//! Which instruction defines an id, and whether ids stand below the bound.
ghost use Rattle.std.specs.Prelude.{◌≡◌, ◌<◌, ◌^◌, length, IfOk, OnOk};
ghost use Rattle.valid_model.specs.Definitions as spec;
ghost use Rattle.spv_types.specs.Tables.{AddsPlace, HasPlaces, IsResultTwice};

use id_table::IdTable;
use spirv_model::Inst;
use spv_words::{ids_are_below, result};
use std::alloc::{AllocError, Global};

/// The place of each id's definition.
pub type Places = IdTable<u32>;

/// The instruction at this place.
pub fn inst_at(insts: &[Inst], place: usize) -> &Inst
    requires { place < length insts.now }
    ensures { result.now ≡ spec.inst_at insts.now place }
{
    &insts[place]
}

/// The place of each id's definition. The ids are expected below the bound.
pub fn definitions(alloc: Global, bound: u32, insts: &[Inst]) -> Result<Places, AllocError>
    requires { length insts.now < 2 ^ 32 }
    ensures { IfOk result (λ places. HasPlaces places insts.now) }
{
    let mut places = IdTable::new(alloc, bound, insts.len())?;
    for place in 0..insts.len() {
        define_place(&mut places, inst_at(insts, place), place as u32)?;
    }
    Ok(places)
}

fn define_place(places: &mut Places, inst: &Inst, place: u32) -> Result<(), AllocError>
    ensures { OnOk result (AddsPlace inst.now place places.old places.new) }
{
    let Some(id) = result(inst) else {
        return Ok(());
    };
    if !places.contains(id) {
        places.insert(id, place)?;
    }
    Ok(())
}

/// The id of the instruction's result, where an earlier instruction has that result.
pub fn id_twice(places: &Places, inst: &Inst, place: usize) -> Option<u32>
    ensures { IsResultTwice places.now inst.now place result }
{
    let id = result(inst)?;
    let at = places.get(id)?;
    if (*at as usize) < place {
        Some(id)
    } else {
        None
    }
}

/// Whether an id of the instruction is 0 or isn't below the bound.
#[tactic(auto, unfolding(valid_model::specs::Definitions::id_out_of_bound))]
pub fn id_out_of_bound(bound: u32, inst: &Inst) -> bool
    ensures { result ≡ spec.id_out_of_bound bound inst.now }
{
    !ids_are_below(inst, bound)
}
