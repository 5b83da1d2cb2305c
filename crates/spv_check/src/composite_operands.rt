//! The operands of instructions that make composites or take them apart (SPIR-V specification, section 3.49.12 "Composite
//! Instructions"), and of OpAny and OpAll.
ghost use Rattle.std.specs.Prelude.{◌≡◌, ◌==◌, ◌||◌, nat_lt, slice_get};
ghost use Rattle.std.specs.List.{list_all, zip};
ghost use Rattle.std.specs.Option.{option_and_then};
ghost use Rattle.check_model.specs.CompositeOperands as spec;
ghost use Rattle.check_model.specs.Typing.{has_type, type_of, type_id};
ghost use Rattle.spv_check.specs.TypingIn.{typing_in};

use crate::typing::{ModuleIds, components_in, components_of, has_type, is_bool, type_id};
use check_model::{Component, Components, Part};
use spirv_model::{Inst, op};
use spv_types::{Meaning, Members, Shape};

fn is_same_component(a: Component, b: Component) -> bool
    ensures { result ≡ spec.is_same_component a b }
{
    match (a, b) {
        (Component::Truth, Component::Truth) => true,
        (Component::Integer { signed }, Component::Integer { signed: other }) => signed == other,
        _ => false,
    }
}

fn component_part(component: Component, count: u8, index: u32) -> Option<Part>
    ensures { result ≡ spec.component_part component count index }
{
    if index < u32::from(count) {
        Some(Part::Component(component))
    } else {
        None
    }
}

/// The member of a structure with this number.
pub fn member_part(members: &Members, number: usize) -> Option<Part>
    ensures { result ≡ spec.member_part (slice_get members.now.list number) }
{
    match members.list.as_slice().get(number) {
        Some(ty) => Some(Part::Type(*ty)),
        None => None,
    }
}

/// The part of a value of this type with this index.
fn part_at(meaning: &Meaning, index: u32) -> Option<Part>
    ensures { result ≡ spec.part_at meaning.now index }
{
    let Meaning::Shape(shape) = meaning else {
        return None;
    };
    match shape {
        Shape::BoolVector { comps } => component_part(Component::Truth, *comps, index),
        Shape::IntVector { comps, signed } => {
            let component = Component::Integer { signed: *signed };
            component_part(component, *comps, index)
        }
        Shape::Array { elem, len } => {
            if index < *len {
                Some(Part::Type(*elem))
            } else {
                None
            }
        }
        Shape::Struct { members } => member_part(members, index as usize),
        _ => None,
    }
}

/// The part of a part. A component has none.
fn part_of(typing: &ModuleIds, part: Part, index: u32) -> Option<Part>
    ensures { result ≡ spec.part_of (typing_in typing.now) part index }
{
    match part {
        Part::Type(ty) => part_at(typing.ids.at(ty), index),
        Part::Component(_) => None,
    }
}

fn part_from(typing: &ModuleIds, reached: Option<Part>, index: u32) -> Option<Part>
    ensures { let known = typing_in typing.now in
        result ≡ option_and_then (λ whole. spec.part_of known whole index) reached }
{
    match reached {
        Some(whole) => part_of(typing, whole, index),
        None => None,
    }
}

/// The part to which these indices lead.
fn part_along(typing: &ModuleIds, start: Option<Part>, indices: &[u32]) -> Option<Part>
    ensures { result ≡ spec.part_along (typing_in typing.now) start indices.now }
{
    let mut reached = start;
    let mut rest = indices;
    while let Some((index, after)) = rest.split_first() {
        reached = part_from(typing, reached, *index);
        rest = after;
    }
    reached
}

/// Whether it is a scalar of this component.
fn is_scalar_of(component: Component, of: Option<Components>) -> bool
    ensures { result ≡ spec.is_scalar_of component of }
{
    match of {
        Some(of) => is_same_component(component, of.component) && of.count == 1,
        None => false,
    }
}

/// Whether the part is of the type with this id.
pub fn is_of_type(typing: &ModuleIds, ty: u32, part: Option<Part>) -> bool
    ensures { result ≡ spec.is_of_type (typing_in typing.now) ty part }
{
    match part {
        Some(Part::Type(own)) => own == ty,
        Some(Part::Component(component)) => {
            is_scalar_of(component, components_in(typing.ids.at(ty)))
        }
        None => false,
    }
}

/// The type of the id as a part.
fn whole_of(typing: &ModuleIds, id: u32) -> Option<Part>
    ensures { result ≡ spec.whole_of (typing_in typing.now) id }
{
    match type_id(typing.ids.at(id)) {
        Some(ty) => Some(Part::Type(ty)),
        None => None,
    }
}

/// Whether the part is of the type of this id.
fn is_of(typing: &ModuleIds, id: u32, part: Option<Part>) -> bool
    ensures { let known = typing_in typing.now in
        result ≡ spec.is_of known (type_id (known.meaning id)) part }
{
    match type_id(typing.ids.at(id)) {
        Some(ty) => is_of_type(typing, ty, part),
        None => false,
    }
}

fn extract_fits(typing: &ModuleIds, ty: u32, composite: u32, indices: &[u32]) -> bool
    ensures { result ≡ spec.extract_fits (typing_in typing.now) ty composite indices.now }
{
    let reached = part_along(typing, whole_of(typing, composite), indices);
    is_of_type(typing, ty, reached)
}

/// Whether indices lead in the composite to a part of the object's type.
fn reaches(typing: &ModuleIds, object: u32, composite: u32, indices: &[u32]) -> bool
    ensures { let known = typing_in typing.now in
        let reached = spec.part_along known (spec.whole_of known composite) indices.now in
        result ≡ spec.is_of known (type_id (known.meaning object)) reached }
{
    let reached = part_along(typing, whole_of(typing, composite), indices);
    is_of(typing, object, reached)
}

fn insert_fits(typing: &ModuleIds, ty: u32, object: u32, composite: u32, indices: &[u32]) -> bool
    ensures { result ≡ spec.insert_fits (typing_in typing.now) ty object composite indices.now }
{
    has_type(typing, ty, composite) && reaches(typing, object, composite, indices)
}

/// Whether it is a scalar or a vector of this component.
fn is_made_of(component: Component, of: Option<Components>) -> bool
    ensures { result ≡ spec.is_made_of component of }
{
    match of {
        Some(of) => is_same_component(component, of.component),
        None => false,
    }
}

fn count_in(of: Option<Components>) -> u8
    ensures { result ≡ spec.count_in of }
{
    match of {
        Some(of) => of.count,
        None => 0,
    }
}

/// Whether at least two scalars or vectors of this component have so many together.
fn vector_parts_fit(typing: &ModuleIds, component: Component, count: u8, parts: &[u32]) -> bool
    ensures { result ≡ spec.vector_parts_fit (typing_in typing.now) component count parts.now }
{
    if parts.len() < 2 {
        return false;
    }
    let mut left = count;
    for id in parts {
        let part = components_of(typing, *id);
        if !is_made_of(component, part) {
            return false;
        }
        let components = count_in(part);
        if components > left {
            return false;
        }
        left -= components;
    }
    left == 0
}

fn are_of_type(typing: &ModuleIds, ty: u32, parts: &[u32]) -> bool
    ensures { result ≡ list_all (has_type (typing_in typing.now) ty) parts.now }
{
    parts.iter().all(|part| has_type(typing, ty, *part))
}

fn are_of_each_type(typing: &ModuleIds, types: &[u32], parts: &[u32]) -> bool
    ensures { let known = typing_in typing.now in
        result ≡ list_all (λ pair. has_type known pair.0 pair.1) (zip types.now parts.now) }
{
    types
        .iter()
        .zip(parts)
        .all(|(ty, part)| has_type(typing, *ty, *part))
}

/// Whether a value of this type is made of these parts.
fn parts_fit(typing: &ModuleIds, meaning: &Meaning, parts: &[u32]) -> bool
    ensures { result ≡ spec.parts_fit (typing_in typing.now) meaning.now parts.now }
{
    let Meaning::Shape(shape) = meaning else {
        return false;
    };
    match shape {
        Shape::BoolVector { comps } => vector_parts_fit(typing, Component::Truth, *comps, parts),
        Shape::IntVector { comps, signed } => {
            let component = Component::Integer { signed: *signed };
            vector_parts_fit(typing, component, *comps, parts)
        }
        Shape::Array { elem, len } => {
            parts.len() == *len as usize && are_of_type(typing, *elem, parts)
        }
        Shape::Struct { members } => {
            let types = members.list.as_slice();
            parts.len() == types.len() && are_of_each_type(typing, types, parts)
        }
        _ => false,
    }
}

/// The literal of OpVectorShuffle that stands for no component.
const NO_COMPONENT: u32 = 0xffff_ffff;

/// Whether each literal numbers one of so many components, or stands for none.
fn are_literals(total: u32, literals: &[u32]) -> bool
    ensures { result ≡ list_all
        (λ literal. nat_lt literal total || (literal == spec.no_component)) literals.now }
{
    literals
        .iter()
        .all(|literal| *literal < total || *literal == NO_COMPONENT)
}

fn is_vector_of(component: Component, of: Option<Components>) -> bool
    ensures { result ≡ spec.is_vector_of component of }
{
    match of {
        Some(of) => is_same_component(component, of.component) && of.count >= 2,
        None => false,
    }
}

/// Whether the literals number the components of two vectors, as many as those of the result.
fn shuffle_into(
    of: Option<Components>,
    first: Option<Components>,
    second: Option<Components>,
    literals: &[u32],
) -> bool
    ensures { result ≡ spec.shuffle_into of first second literals.now }
{
    let Some(of) = of else {
        return false;
    };
    let components = u32::from(count_in(first)) + u32::from(count_in(second));
    of.count >= 2
        && usize::from(of.count) == literals.len()
        && is_vector_of(of.component, first)
        && is_vector_of(of.component, second)
        && are_literals(components, literals)
}

fn shuffle_fits(typing: &ModuleIds, ty: u32, first: u32, second: u32, literals: &[u32]) -> bool
    ensures { result ≡ spec.shuffle_fits (typing_in typing.now) ty first second literals.now }
{
    let of = components_in(typing.ids.at(ty));
    let first = components_of(typing, first);
    let second = components_of(typing, second);
    shuffle_into(of, first, second, literals)
}

fn is_truth_vector(meaning: &Meaning) -> bool
    ensures { result ≡ spec.is_truth_vector meaning.now }
{
    matches!(meaning, Meaning::Shape(Shape::BoolVector { .. }))
}

fn are_truth_values(typing: &ModuleIds, id: u32) -> bool
    ensures { result ≡ spec.is_truth_vector (type_of (typing_in typing.now) id) }
{
    match type_id(typing.ids.at(id)) {
        Some(ty) => is_truth_vector(typing.ids.at(ty)),
        None => false,
    }
}

fn reduction_fits(typing: &ModuleIds, ty: u32, vector: u32) -> bool
    ensures { result ≡ spec.reduction_fits (typing_in typing.now) ty vector }
{
    is_bool(typing.ids.at(ty)) && are_truth_values(typing, vector)
}

/// Whether the operands of an instruction of this class fit.
#[tactic(auto, unfolding(check_model::specs::CompositeOperands::composite_operands_fit))]
pub fn composite_operands_fit(typing: &ModuleIds, inst: &Inst) -> bool
    ensures { result ≡ spec.composite_operands_fit (typing_in typing.now) inst.now }
{
    let ty = inst.word(0);
    match inst.op {
        op::COMPOSITE_CONSTRUCT => parts_fit(typing, typing.ids.at(ty), inst.words_from(2)),
        op::COMPOSITE_EXTRACT => extract_fits(typing, ty, inst.word(2), inst.words_from(3)),
        op::COMPOSITE_INSERT => {
            insert_fits(typing, ty, inst.word(2), inst.word(3), inst.words_from(4))
        }
        op::VECTOR_SHUFFLE => {
            shuffle_fits(typing, ty, inst.word(2), inst.word(3), inst.words_from(4))
        }
        op::ANY | op::ALL => reduction_fits(typing, ty, inst.word(2)),
        _ => false,
    }
}
