//! The operands of OpLoad, OpStore and OpAccessChain (SPIR-V specification, section 3.49.8 "Memory Instructions").
ghost use Rattle.std.specs.Prelude.{◌≡◌};
ghost use Rattle.std.specs.Option.{option_and_then, option_map};
ghost use Rattle.check_model.specs.declared.components.Part.TheVariants as part;
ghost use Rattle.valid_model.specs.Shapes as shapes;
ghost use Rattle.check_model.specs.MemoryOperands as spec;
ghost use Rattle.spv_check.specs.TypingIn.{typing_in};

use crate::composite_operands::{is_of_type, member_part};
use crate::typing::{ModuleIds, constant_word, has_type, is_integer_value, pointee_id, pointee_of};
use check_model::{Component, Part};
use spirv_model::{Inst, op};
use spv_types::{Meaning, Members, Shape};

fn load_fits(typing: &ModuleIds, ty: u32, pointer: u32) -> bool
    ensures { result ≡ spec.load_fits (typing_in typing.now) ty pointer }
{
    match pointee_of(typing, pointer) {
        Some(to) => to == ty,
        None => false,
    }
}

fn store_fits(typing: &ModuleIds, pointer: u32, object: u32) -> bool
    ensures { result ≡ spec.store_fits (typing_in typing.now) pointer object }
{
    match pointee_of(typing, pointer) {
        Some(to) => has_type(typing, to, object),
        None => false,
    }
}

/// What an index leads to, where it is an integer.
fn indexed(typing: &ModuleIds, index: u32, reached: Part) -> Option<Part>
    ensures { result ≡ spec.indexed (typing_in typing.now) index reached }
{
    if is_integer_value(typing, index) {
        Some(reached)
    } else {
        None
    }
}

/// The member of a structure with the number of this OpConstant.
fn member_at(members: &Members, number: Option<u32>) -> Option<Part>
    ensures { result ≡ spec.member_at members.now.list number }
{
    match number {
        Some(number) => member_part(members, number as usize),
        None => None,
    }
}

/// The part of a value of this type to which the index with this id leads.
fn chain_part(typing: &ModuleIds, meaning: &Meaning, index: u32) -> Option<Part>
    ensures { result ≡ spec.chain_part (typing_in typing.now) meaning.now index }
{
    let Meaning::Shape(shape) = meaning else {
        return None;
    };
    match shape {
        Shape::BoolVector { .. } => indexed(typing, index, Part::Component(Component::Truth)),
        Shape::IntVector { signed, .. } => {
            let component = Component::Integer { signed: *signed };
            indexed(typing, index, Part::Component(component))
        }
        Shape::Array { elem, .. } => indexed(typing, index, Part::Type(*elem)),
        Shape::Struct { members } => member_at(members, constant_word(typing, index)),
        _ => None,
    }
}

fn chain_step(typing: &ModuleIds, index: u32, reached: Part) -> Option<Part>
    ensures { result ≡ spec.chain_step (typing_in typing.now) index reached }
{
    match reached {
        Part::Type(ty) => chain_part(typing, typing.ids.at(ty), index),
        Part::Component(_) => None,
    }
}

fn chain_step_from(typing: &ModuleIds, index: u32, reached: Option<Part>) -> Option<Part>
    ensures { result ≡ option_and_then (spec.chain_step (typing_in typing.now) index) reached }
{
    match reached {
        Some(reached) => chain_step(typing, index, reached),
        None => None,
    }
}

fn chain_along(typing: &ModuleIds, start: Option<Part>, indices: &[u32]) -> Option<Part>
    ensures { result ≡ spec.chain_along (typing_in typing.now) start indices.now }
{
    let mut reached = start;
    let mut rest = indices;
    while let Some((index, after)) = rest.split_first() {
        reached = chain_step_from(typing, *index, reached);
        rest = after;
    }
    reached
}

/// Whether the type is a pointer of this storage class to such a part.
fn is_pointer_to(typing: &ModuleIds, meaning: &Meaning, storage: u8, reached: Option<Part>) -> bool
    ensures { result ≡ spec.is_pointer_to (typing_in typing.now) meaning.now storage reached }
{
    match meaning {
        Meaning::Shape(Shape::Pointer { class, to }) => {
            *class == storage && is_of_type(typing, *to, reached)
        }
        _ => false,
    }
}

/// What a variable of this type holds, as a part.
fn held_part(meaning: &Meaning) -> Option<Part>
    ensures { result ≡ option_map part.Type (shapes.pointee_id meaning.now) }
{
    match pointee_id(meaning) {
        Some(to) => Some(Part::Type(to)),
        None => None,
    }
}

/// Whether indices lead from the variable to what a pointer of this type points to.
fn chain_fits(typing: &ModuleIds, ty: u32, base: &Meaning, indices: &[u32]) -> bool
    ensures { result ≡ spec.chain_fits (typing_in typing.now) ty base.now indices.now }
{
    match base {
        Meaning::Variable { ty: held, class } => {
            let start = held_part(typing.ids.at(*held));
            let reached = chain_along(typing, start, indices);
            is_pointer_to(typing, typing.ids.at(ty), *class, reached)
        }
        _ => false,
    }
}

/// Whether the operands of an instruction of this class fit.
#[tactic(auto, unfolding(check_model::specs::MemoryOperands::memory_operands_fit))]
pub fn memory_operands_fit(typing: &ModuleIds, inst: &Inst) -> bool
    ensures { result ≡ spec.memory_operands_fit (typing_in typing.now) inst.now }
{
    match inst.op {
        op::LOAD => load_fits(typing, inst.word(0), inst.word(2)),
        op::STORE => store_fits(typing, inst.word(0), inst.word(1)),
        op::ACCESS_CHAIN => {
            let base = typing.ids.at(inst.word(2));
            chain_fits(typing, inst.word(0), base, inst.words_from(3))
        }
        _ => false,
    }
}
