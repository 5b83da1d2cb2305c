//! One pass over the instructions: what is known of each id, and the first fault.
ghost use Rattle.std.specs.Prelude.{◌<◌, ◌^◌, length, IfOk, OnOk};
ghost use Rattle.spv_types.specs.Tables.{AddsFault, AddsMeaning, HasPlaces, IsFirstPass};

use crate::definitions::{Places, inst_at};
use crate::first_fault::fault_at;
use crate::knowledge::Table;
use crate::meanings::known_of;
use id_table::IdTable;
use spirv_model::{Inst, Words};
use spv_words::result;
use std::alloc::{AllocError, Global};
use valid_model::TypeFault;

/// A fault and its place.
#[derive(Clone, Copy, Debug, Drop)]
pub struct Found {
    pub place: usize,
    pub fault: TypeFault,
}

/// What is known of each id, and the first fault of ids, types and constants.
#[derive(Debug, Drop)]
pub struct FirstPass {
    pub table: Table,
    pub found: Option<Found>,
}

/// More is known after one more instruction.
#[tactic(auto, unfolding(valid_model::specs::Meanings::known_after))]
fn define(alloc: Global, table: &mut Table, inst: &Inst) -> Result<(), AllocError>
    ensures { OnOk result (AddsMeaning inst.now table.old table.new) }
{
    let Some(id) = result(inst) else {
        return Ok(());
    };
    if !table.contains(id) {
        let known = known_of(alloc, table, inst)?;
        table.insert(id, known)?;
    }
    Ok(())
}

/// The fault that was found, else the one at this place.
fn earlier(found: Option<Found>, place: usize, fault: Option<TypeFault>) -> Option<Found>
    ensures { AddsFault found place fault result }
{
    if found.is_some() {
        return found;
    }
    let fault = fault?;
    Some(Found { place, fault })
}

/// Goes over all instructions.
pub fn go_over(alloc: Global, words: &Words, places: &Places) -> Result<FirstPass, AllocError>
    requires few { length words.now.insts < 2 ^ 32 }
    requires defined { HasPlaces places.now words.now.insts }
    ensures { IfOk result (λ pass. IsFirstPass words.now pass) }
{
    let insts = words.insts.as_slice();
    let mut table = IdTable::new(alloc, words.bound, insts.len())?;
    let mut found = None;
    for place in 0..insts.len() {
        let fault = fault_at(alloc, words, places, &table, place)?;
        found = earlier(found, place, fault);
        define(alloc, &mut table, inst_at(insts, place))?;
    }
    Ok(FirstPass { table, found })
}
