//! Whether a shader's module fits its stage, its layout and its entries.
ghost use Rattle.std.specs.Prelude.{◌≡◌, ◌==◌, ◌<◌, ◌≤◌, ◌^◌, ◌+◌, ◌*◌, ◌-◌, Some, map, unwrap_or};
ghost use Rattle.std.specs.List.{list_any};
ghost use Rattle.draw_model.specs.Pixel.{has_bit};
ghost use Rattle.body_model.specs.Switches.{repeat};
ghost use Rattle.check_model.specs.Interfaces.{stage_of};
ghost use Rattle.stage_model.specs.Program.{program_of, block_offsets, held_type, pointee};
ghost use Rattle.trace_model.specs.PartCauses as spec;
ghost use Rattle.trace_text.specs.ModuleParts.{are_behind, array_of, components_behind, elements_behind, member_behind, members_behind, members_of, stride_in, variable_type, vector_behind};
ghost use Rattle.valid_model.specs.EarlierFacts.{is_variable_of};

use spirv_model::{Inst, op, storage_class};
use spv_check::{Module, Stage};
use spv_types::{Meaning, Shape};
use state_model::{Entry, Layout};

/// Whether the module is of another stage, an entry's id stands twice, or the module uses what the layout lacks.
pub fn is_bad_shader(stage: Stage, module: &Module, layout: &Layout, entries: &[Entry]) -> bool
    ensures { result ≡ spec.is_bad_shader stage «module».now layout.now entries.now }
{
    if stages_differ(stage, module.stage()) {
        return true;
    }
    if repeat_ids(entries) {
        return true;
    }
    exceeds_layout(module, layout)
}

fn stages_differ(stage: Stage, other: Stage) -> bool
    ensures { result ≡ spec.stages_differ stage other }
{
    match (stage, other) {
        (Stage::Vertex, Stage::Vertex) | (Stage::Fragment, Stage::Fragment) => false,
        _ => true,
    }
}

/// Whether two of at most sixteen entries have one id.
#[tactic(auto, using(crate::proofs::BlockParts::ids_among))]
fn repeat_ids(entries: &[Entry]) -> bool
    ensures { result ≡ repeat (map (λ e. e.id) entries.now) }
{
    let mut rest = entries;
    while let Some((first, others)) = rest.split_first() {
        if has_id(others, first.id) {
            return true;
        }
        rest = others;
    }
    false
}

fn has_id(entries: &[Entry], id: u32) -> bool
    ensures { result ≡ list_any (λ e. e.id == id) entries.now }
{
    entries.iter().any(|entry| entry.id == id)
}

fn exceeds_layout(module: &Module, layout: &Layout) -> bool
    ensures { result ≡ spec.exceeds_layout «module».now.insts layout.now }
{
    if lacks_uniforms(module, layout) {
        return true;
    }
    exceeds_pushes(module, layout)
}

fn lacks_uniforms(module: &Module, layout: &Layout) -> bool
    ensures { result
        ≡ list_any (spec.lacks_uniform «module».now.insts layout.now) «module».now.insts }
{
    module
        .insts()
        .iter()
        .any(|inst| lacks_uniform(module, layout, inst))
}

fn exceeds_pushes(module: &Module, layout: &Layout) -> bool
    ensures { result
        ≡ list_any (spec.exceeds_push «module».now.insts layout.now) «module».now.insts }
{
    module
        .insts()
        .iter()
        .any(|inst| exceeds_push(module, layout, inst))
}

/// Whether the instruction is a variable of this storage class.
fn is_variable_of(storage: u32, inst: &Inst) -> bool
    ensures { result ≡ is_variable_of storage inst.now }
{
    inst.op == op::VARIABLE && inst.word(2) == storage
}

/// Whether this is a Uniform variable whose set or binding the layout lacks.
fn lacks_uniform(module: &Module, layout: &Layout, inst: &Inst) -> bool
    ensures { result ≡ spec.lacks_uniform «module».now.insts layout.now inst.now }
{
    if !is_variable_of(storage_class::UNIFORM, inst) {
        return false;
    }
    lacks_slot(layout, module.ids().slot(inst.word(1)))
}

/// Whether the layout lacks the set or the binding.
fn lacks_slot(layout: &Layout, slot: Option<(u32, u32)>) -> bool
    ensures { result ≡ spec.lacks_slot layout.now slot }
{
    let Some((set, binding)) = slot else {
        return true;
    };
    let Some(mask) = layout.sets.get(set as usize).copied().flatten() else {
        return true;
    };
    !has_bit(mask, binding)
}

#[tactic(auto, using(crate::proofs::BlockParts::no_bit))]
fn has_bit(mask: u8, bit: u32) -> bool
    ensures { result ≡ has_bit mask bit }
{
    if bit >= 8 {
        return false;
    }
    (mask >> bit) % 2 == 1
}

/// Whether this is a variable of push constants with a word that ends behind the layout's. A valid module has one such variable at
/// most.
fn exceeds_push(module: &Module, layout: &Layout, inst: &Inst) -> bool
    ensures { result ≡ spec.exceeds_push «module».now.insts layout.now inst.now }
{
    if !is_variable_of(storage_class::PUSH_CONSTANT, inst) {
        return false;
    }
    let limit = 4 * u32::from(layout.push_words);
    words_behind(module, limit, held_type(module, inst.word(1)))
}

/// What an id means.
#[tactic(auto, unfolding(stage_model::specs::Program::program_of))]
fn meaning(module: &Module, id: u32) -> &Meaning
    ensures { result.now ≡ (program_of «module».now.insts).meaning id }
{
    module.ids().at(id)
}

/// The type of what a variable holds.
#[tactic(auto, using(crate::proofs::BlockParts::held_by))]
fn held_type(module: &Module, variable: u32) -> Option<u32>
    ensures { result ≡ held_type (program_of «module».now.insts) variable }
{
    let ty = variable_type(meaning(module, variable))?;
    pointee(meaning(module, ty))
}

fn variable_type(meaning: &Meaning) -> Option<u32>
    ensures { result ≡ variable_type meaning.now }
{
    match meaning {
        Meaning::Variable { ty, .. } => Some(*ty),
        _ => None,
    }
}

fn pointee(meaning: &Meaning) -> Option<u32>
    ensures { result ≡ pointee meaning.now }
{
    match meaning {
        Meaning::Shape(Shape::Pointer { to, .. }) => Some(*to),
        _ => None,
    }
}

/// Whether a word of what is held ends behind the limit, in bytes.
#[tactic(auto, using(crate::proofs::BlockParts::no_block))]
fn words_behind(module: &Module, limit: u32, held: Option<u32>) -> bool
    ensures { result ≡ are_behind limit (block_offsets (program_of «module».now.insts) held) }
{
    match held {
        Some(block) => block_behind(module, limit, block),
        None => false,
    }
}

/// The same of a block.
#[tactic(auto, using(crate::proofs::BlockParts::block_by_members))]
fn block_behind(module: &Module, limit: u32, block: u32) -> bool
    ensures { result
        ≡ are_behind limit (block_offsets (program_of «module».now.insts) (Some block)) }
{
    members_behind(module, limit, block, members_of(meaning(module, block)))
}

/// The members of a structure; no other type has any.
fn members_of(meaning: &Meaning) -> &[u32]
    ensures { result.now ≡ members_of meaning.now }
{
    match meaning {
        Meaning::Shape(Shape::Struct { members }) => members.list.as_slice(),
        _ => &[],
    }
}

/// The same of members with these types.
fn members_behind(module: &Module, limit: u32, block: u32, types: &[u32]) -> bool
    ensures { result ≡ members_behind «module».now.insts limit block 0 types.now }
{
    for member in 0..types.len() {
        let offset = member_offset(module, block, member);
        if member_behind(module, limit, offset, types[member]) {
            return true;
        }
    }
    false
}

#[tactic(auto, unfolding(stage_model::specs::Program::program_of))]
fn member_offset(module: &Module, block: u32, member: usize) -> u32
    ensures { result ≡ unwrap_or ((program_of «module».now.insts).offset block member) 0 }
{
    module.ids().offset(block, member).unwrap_or(0)
}

/// The same of a member of this type at an offset.
#[tactic(auto, using(crate::proofs::BlockParts::by_array))]
fn member_behind(module: &Module, limit: u32, offset: u32, ty: u32) -> bool
    ensures { result ≡ member_behind «module».now.insts limit offset ty }
{
    match array_of(meaning(module, ty)) {
        Some((elem, len)) => {
            let stride = stride(module, ty);
            elements_behind(limit, offset, len, stride, meaning(module, elem))
        }
        None => components_behind(limit, u64::from(offset), meaning(module, ty)),
    }
}

/// The element and the length of an array.
fn array_of(meaning: &Meaning) -> Option<(u32, u32)>
    ensures { result ≡ array_of meaning.now }
{
    match meaning {
        Meaning::Shape(Shape::Array { elem, len }) => Some((*elem, *len)),
        _ => None,
    }
}

#[tactic(auto, unfolding(stage_model::specs::Program::program_of))]
fn stride(module: &Module, ty: u32) -> u32
    ensures { result ≡ stride_in (program_of «module».now.insts) ty }
{
    module.ids().stride(ty).unwrap_or(0)
}

/// The same of so many elements.
fn elements_behind(limit: u32, offset: u32, len: u32, stride: u32, meaning: &Meaning) -> bool
    ensures { result ≡ elements_behind limit offset len stride meaning.now }
{
    (0..len).any(|i| components_behind(limit, place(offset, i, stride), meaning))
}

fn place(offset: u32, i: u32, stride: u32) -> u64
    ensures is { result ≡ offset + i * stride }
    ensures low { result ≤ 2 ^ 64 - 2 ^ 32 }
{
    u64::from(offset) + u64::from(i) * u64::from(stride)
}

/// The same of an integer or a vector of integers.
fn components_behind(limit: u32, base: u64, meaning: &Meaning) -> bool
    requires { base ≤ 2 ^ 64 - 2 ^ 32 }
    ensures { result ≡ components_behind limit base meaning.now }
{
    match meaning {
        Meaning::Shape(Shape::Int { .. }) => u64::from(limit) < base + 4,
        Meaning::Shape(Shape::IntVector { comps, .. }) => vector_behind(limit, base, *comps),
        _ => false,
    }
}

/// The same of so many integers.
#[tactic(auto, using(crate::proofs::BlockParts::by_components))]
fn vector_behind(limit: u32, base: u64, comps: u8) -> bool
    requires { base ≤ 2 ^ 64 - 2 ^ 32 }
    ensures { result ≡ vector_behind limit base comps }
{
    comps > 0 && u64::from(limit) < base + 4 * u64::from(comps)
}
