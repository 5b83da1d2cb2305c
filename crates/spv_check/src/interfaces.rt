//! The interface of a module: its inputs and outputs by location, and its specialization ids (SPIR-V specification, section
//! 3.20 "Decoration"; Vulkan specification, section "Shader Interfaces").
ghost use Rattle.std.specs.Prelude.{◌≡◌, length};
ghost use Rattle.valid_model.specs.Shapes.{held_type};
ghost use Rattle.check_model.specs.Interfaces as spec;
ghost use Rattle.spirv_model.specs.declared.storage_class.TheConstants as storage_class;
ghost use Rattle.spv_check.specs.FactsTold.{facts_told, interface_told, shared_location, slot_told, type_at};

use limits::LOCATIONS;
use spirv_model::{Inst, op, storage_class};
use spv_types::{Ids, Meaning, Shape};
use state_model::{Iface, Slot};

/// Whether it is a variable of this class at this location.
fn is_variable_at(ids: &Ids, class: u32, location: u32, inst: &Inst) -> bool
    ensures { result ≡ spec.is_variable_at (facts_told ids.now) class location inst.now }
{
    inst.op == op::VARIABLE && inst.word(2) == class && ids.location(inst.word(1)) == Some(location)
}

/// Whether an input at this location isn't Flat.
fn has_smooth_input(insts: &[Inst], ids: &Ids, location: u32) -> bool
    ensures { result ≡ spec.has_smooth_input (facts_told ids.now) insts.now location }
{
    insts
        .iter()
        .filter(|inst| is_variable_at(ids, storage_class::INPUT, location, inst))
        .any(|inst| !ids.is_flat(inst.word(1)))
}

/// The lowest location of an input of a fragment module that isn't Flat.
pub fn smooth_input(insts: &[Inst], ids: &Ids) -> Option<u32>
    ensures { result ≡ spec.lowest_location (spec.has_smooth_input (facts_told ids.now) insts.now) }
{
    (0..LOCATIONS as u32).find(|location| has_smooth_input(insts, ids, *location))
}

/// The number of variables of the class at this location.
fn count_at(insts: &[Inst], ids: &Ids, class: u32, location: u32) -> usize
    ensures { result ≡ length (spec.variables_at (facts_told ids.now) insts.now class location) }
{
    insts
        .iter()
        .filter(|inst| is_variable_at(ids, class, location, inst))
        .count()
}

/// Whether two variables of the class have this location.
fn are_two(insts: &[Inst], ids: &Ids, class: u32, location: u32) -> bool
    ensures { result ≡ spec.are_two (facts_told ids.now) insts.now class location }
{
    count_at(insts, ids, class, location) >= 2
}

/// The lowest location that two inputs or two outputs have.
pub fn shared_location(insts: &[Inst], ids: &Ids) -> Option<u32>
    ensures { result ≡ shared_location (facts_told ids.now) insts.now }
{
    (0..LOCATIONS as u32).find(|location| {
        are_two(insts, ids, storage_class::INPUT, *location)
            || are_two(insts, ids, storage_class::OUTPUT, *location)
    })
}

/// An integer or a vector of integers, as the slot of an interface.
fn slot_in(meaning: &Meaning) -> Option<Slot>
    ensures { result ≡ spec.slot_in meaning.now }
{
    match meaning {
        Meaning::Shape(Shape::Int { signed }) => Some(Slot {
            comps: 1,
            signed: *signed,
        }),
        Meaning::Shape(Shape::IntVector { comps, signed }) => Some(Slot {
            comps: *comps,
            signed: *signed,
        }),
        _ => None,
    }
}

/// What a variable of this type holds, as a slot.
fn slot_of_type(ids: &Ids, ty: u32) -> Option<Slot>
    ensures { result ≡ spec.slot_in (held_type (facts_told ids.now) ty) }
{
    match ids.at(ty) {
        Meaning::Shape(Shape::Pointer { to, .. }) => slot_in(ids.at(*to)),
        _ => None,
    }
}

/// The type of the variable of this class at a location.
fn type_at(insts: &[Inst], ids: &Ids, class: u32, location: u32) -> Option<u32>
    ensures { result ≡ type_at (facts_told ids.now) insts.now class location }
{
    let inst = insts
        .iter()
        .find(|inst| is_variable_at(ids, class, location, inst))?;
    Some(inst.word(0))
}

/// What the variable of this class at a location holds.
fn slot_at(insts: &[Inst], ids: &Ids, class: u32, location: u32) -> Option<Slot>
    ensures { result ≡ slot_told (facts_told ids.now) insts.now class location }
{
    let ty = type_at(insts, ids, class, location)?;
    slot_of_type(ids, ty)
}

/// The inputs or the outputs, by location.
pub fn interface(insts: &[Inst], ids: &Ids, class: u32) -> Iface
    ensures { result ≡ interface_told (facts_told ids.now) insts.now class }
{
    Iface {
        slots: [
            slot_at(insts, ids, class, 0),
            slot_at(insts, ids, class, 1),
            slot_at(insts, ids, class, 2),
            slot_at(insts, ids, class, 3),
            slot_at(insts, ids, class, 4),
            slot_at(insts, ids, class, 5),
            slot_at(insts, ids, class, 6),
            slot_at(insts, ids, class, 7),
        ],
    }
}
