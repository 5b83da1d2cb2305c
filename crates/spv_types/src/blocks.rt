//! Which types are blocks whose members are laid out (SPIR-V specification, section 2.16.2 "Validation Rules for Shader
//! Capabilities").
ghost use Rattle.std.specs.Prelude.{◌≡◌};
ghost use Rattle.valid_model.specs.Blocks as spec;
ghost use Rattle.spv_types.specs.FactsIn.{facts_in, id_meaning};

use crate::module_facts::{ModuleTables, decoration_of, is_decorated, offset_of};
use crate::shapes::{is_array, is_integers, pointee_id};
use spirv_model::decoration;
use valid_model::{IdFacts, Meaning, Shape};

fn is_block_member(whole: &ModuleTables, ty: u32) -> bool
    ensures { result ≡ spec.is_block_member (facts_in whole.now) (id_meaning whole.now ty) }
{
    match whole.known.get(ty) {
        Some(
            IdFacts {
                meaning: Meaning::Shape(Shape::Array { elem, .. }),
                ..
            },
        ) => is_integers(whole.known, *elem),
        _ => is_integers(whole.known, ty),
    }
}

fn is_multiple_of_four(offset: Option<u32>) -> bool
    ensures { result ≡ spec.is_multiple_of_four offset }
{
    match offset {
        Some(offset) => offset % 4 == 0,
        None => false,
    }
}

fn is_stride(stride: Option<u32>) -> bool
    ensures { result ≡ spec.is_stride stride }
{
    match stride {
        Some(stride) => stride > 0 && stride % 4 == 0,
        None => false,
    }
}

fn is_laid_out(whole: &ModuleTables, id: u32, member: usize, ty: u32) -> bool
    ensures { result ≡ spec.is_laid_out (facts_in whole.now) id member ty }
{
    is_block_member(whole, ty)
        && is_multiple_of_four(offset_of(whole, id, member))
        && (!is_array(whole.known, ty)
            || is_stride(decoration_of(whole, ty, decoration::ARRAY_STRIDE)))
}

fn are_laid_out(whole: &ModuleTables, id: u32, types: &[u32]) -> bool
    ensures { result ≡ spec.are_laid_out (facts_in whole.now) id 0 types.now }
{
    for (member, ty) in types.iter().enumerate() {
        if !is_laid_out(whole, id, member, *ty) {
            return false;
        }
    }
    true
}

/// Whether the type is a structure with Block whose members are laid out.
fn is_block_type(whole: &ModuleTables, id: u32) -> bool
    ensures { result ≡ spec.is_block_type (facts_in whole.now) id (id_meaning whole.now id) }
{
    match whole.known.get(id) {
        Some(
            IdFacts {
                meaning: Meaning::Shape(Shape::Struct { members }),
                ..
            },
        ) => {
            is_decorated(whole, id, decoration::BLOCK)
                && are_laid_out(whole, id, members.list.as_slice())
        }
        _ => false,
    }
}

/// Whether the type is a pointer to such a structure.
pub fn points_to_block(whole: &ModuleTables, ty: u32) -> bool
    ensures { result ≡ spec.points_to_block (facts_in whole.now) ty }
{
    match pointee_id(whole.known, ty) {
        Some(to) => is_block_type(whole, to),
        None => false,
    }
}
