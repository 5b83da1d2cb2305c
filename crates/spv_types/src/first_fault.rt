//! The faults of ids, types, constants and decorations, and the first of them.
ghost use Rattle.std.specs.Prelude.{◌≡◌, ◌<◌, ◌^◌, length, IfOk, IfSome};
ghost use Rattle.valid_model.specs.FirstFault as spec;
ghost use Rattle.valid_model.specs.Meanings as meanings;
ghost use Rattle.spv_types.specs.Decorated.{AreDecorationsOf};
ghost use Rattle.spv_types.specs.FirstBad.{bad_else};
ghost use Rattle.spv_types.specs.Tables.{in_table, HasPlaces, IsFirstPass};

use crate::constants::breaks_constants;
use crate::decoration_words::Decorations;
use crate::decorations::first_bad_decoration;
use crate::definitions::{Places, id_out_of_bound, id_twice, inst_at};
use crate::knowledge::Table;
use crate::module_facts::{ModuleTables, model_of};
use crate::pass::FirstPass;
use crate::types::{breaks_types, has_later_type};
use spirv_model::{Inst, Words};
use std::alloc::{AllocError, Global};
use valid_model::TypeFault;

#[tactic(auto, unfolding(valid_model::specs::FirstFault::bad_type))]
fn bad_type(
    alloc: Global,
    insts: &[Inst],
    places: &Places,
    table: &Table,
    place: usize,
) -> Result<bool, AllocError>
    requires within { place < length insts.now }
    requires defined { HasPlaces places.now insts.now }
    requires known { in_table table.now ≡ meanings.known_before insts.now place }
    ensures { IfOk result (λ bad. bad ≡ spec.bad_type insts.now place) }
{
    let inst = inst_at(insts, place);
    let breaks = breaks_types(alloc, table, inst)?;
    Ok(breaks || has_later_type(insts, places, place))
}

#[tactic(auto, unfolding(valid_model::specs::FirstFault::bad_constant))]
fn bad_constant(insts: &[Inst], table: &Table, place: usize) -> bool
    requires within { place < length insts.now }
    requires known { in_table table.now ≡ meanings.known_before insts.now place }
    ensures { result ≡ spec.bad_constant insts.now place }
{
    let inst = inst_at(insts, place);
    breaks_constants(table, inst)
}

fn fault_of(
    place: usize,
    twice: Option<u32>,
    outside: bool,
    misdeclared: bool,
    unfit: bool,
) -> Option<TypeFault>
    requires { place < 2 ^ 32 }
    ensures { result ≡ spec.fault_of place twice outside misdeclared unfit }
{
    let place = place as u32;
    if let Some(id) = twice {
        Some(TypeFault::IdTwice(id))
    } else if outside {
        Some(TypeFault::IdOutOfBound(place))
    } else if misdeclared {
        Some(TypeFault::BadType(place))
    } else if unfit {
        Some(TypeFault::BadConstant(place))
    } else {
        None
    }
}

/// The fault at a place, decorations aside.
#[tactic(auto, unfolding(valid_model::specs::FirstFault::rule_fault, valid_model::specs::Definitions::id_twice))]
pub fn fault_at(
    alloc: Global,
    words: &Words,
    places: &Places,
    table: &Table,
    place: usize,
) -> Result<Option<TypeFault>, AllocError>
    requires few { length words.now.insts < 2 ^ 32 }
    requires within { place < length words.now.insts }
    requires defined { HasPlaces places.now words.now.insts }
    requires known { in_table table.now ≡ meanings.known_before words.now.insts place }
    ensures { IfOk result (λ fault. fault ≡ spec.rule_fault words.now place) }
{
    let insts = words.insts.as_slice();
    let inst = inst_at(insts, place);
    let twice = id_twice(places, inst, place);
    let outside = id_out_of_bound(words.bound, inst);
    let misdeclared = bad_type(alloc, insts, places, table, place)?;
    let unfit = bad_constant(insts, table, place);
    Ok(fault_of(place, twice, outside, misdeclared, unfit))
}

/// The first fault, decorations among them.
pub fn first_fault(
    alloc: Global,
    words: &Words,
    places: &Places,
    pass: &FirstPass,
    decorations: &Decorations,
) -> Result<Option<TypeFault>, AllocError>
    requires few { length words.now.insts < 2 ^ 32 }
    requires defined { HasPlaces places.now words.now.insts }
    requires over { IsFirstPass words.now pass.now }
    requires decorations { AreDecorationsOf words.now.insts decorations.now }
    ensures { IfOk result (λ fault. fault ≡ spec.type_fault words.now) }
{
    let insts = words.insts.as_slice();
    let whole = ModuleTables {
        decorations,
        known: &pass.table,
        places,
        insts,
        model: model_of(insts),
    };
    match pass.found {
        Some(found) => {
            let bad = first_bad_decoration(alloc, &whole, found.place)?;
            Ok(bad_or(bad, Some(found.fault)))
        }
        None => {
            let bad = first_bad_decoration(alloc, &whole, insts.len())?;
            Ok(bad_or(bad, None))
        }
    }
}

/// The bad decoration, else the other fault.
fn bad_or(bad: Option<usize>, other: Option<TypeFault>) -> Option<TypeFault>
    requires { IfSome bad (λ place. place < 2 ^ 32) }
    ensures { result ≡ bad_else bad other }
{
    match bad {
        Some(place) => Some(TypeFault::BadDecoration(place as u32)),
        None => other,
    }
}
