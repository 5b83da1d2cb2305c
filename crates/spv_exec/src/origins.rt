//! Where the words of a variable come from when a run begins.
ghost use Rattle.std.specs.Prelude.{◌≡◌};
ghost use Rattle.spirv_model.specs.declared.decoration.TheConstants.{ARRAY_STRIDE, BUILT_IN, LOCATION, SPEC_ID};
ghost use Rattle.stage_model.specs.Program.{program_of};
ghost use Rattle.std.specs.Prelude.{Some, slice_index, slice_index_or, []};
ghost use Rattle.stage_model.specs.Start as start;
ghost use Rattle.spv_exec.specs.Origins.{index_of, input_origin, origin_in, origin_word, slot_in};

use crate::module_frame::ModuleFrame;
use spirv_model::{builtin, storage_class};
use stage_model::Inputs;
use state_model::Buffers;

/// Where the words of a variable come from.
#[derive(Clone, Copy, Debug, Drop)]
pub enum Origin {
    /// From nothing that is given: they are zeros.
    Cleared,
    /// From a built-in.
    BuiltIn(u32),
    /// From the input at a location.
    Location(u32),
    /// From the push constants.
    Push,
    /// From the buffer that is bound at a set and a binding.
    Bound { set: u32, binding: u32 },
}

/// The built-in that an id is decorated with.
#[tactic(auto, unfolding(stage_model::specs::Program::program_of))]
pub fn built_in(of: &ModuleFrame<'_>, id: u32) -> Option<u32>
    ensures { result ≡ (program_of of.now.insts).decoration id BUILT_IN }
{
    of.module().ids().built_in(id)
}

/// The location of an id.
#[tactic(auto, unfolding(stage_model::specs::Program::program_of))]
pub fn location(of: &ModuleFrame<'_>, id: u32) -> Option<u32>
    ensures { result ≡ (program_of of.now.insts).decoration id LOCATION }
{
    of.module().ids().location(id)
}

/// The bytes from an element of an array to the next.
#[tactic(auto, unfolding(stage_model::specs::Program::program_of))]
pub fn stride(of: &ModuleFrame<'_>, id: u32) -> Option<u32>
    ensures { result ≡ (program_of of.now.insts).decoration id ARRAY_STRIDE }
{
    of.module().ids().stride(id)
}

/// The number that a specialization constant is set by.
#[tactic(auto, unfolding(stage_model::specs::Program::program_of))]
pub fn spec_id(of: &ModuleFrame<'_>, id: u32) -> Option<u32>
    ensures { result ≡ (program_of of.now.insts).decoration id SPEC_ID }
{
    of.module().ids().spec_id(id)
}

/// The offset of a structure's member, in bytes.
#[tactic(auto, unfolding(stage_model::specs::Program::program_of))]
pub fn offset(of: &ModuleFrame<'_>, id: u32, member: usize) -> Option<u32>
    ensures { result ≡ (program_of of.now.insts).offset id member }
{
    of.module().ids().offset(id, member)
}

/// The descriptor set and the binding of an id that has both.
#[tactic(auto, unfolding(stage_model::specs::Program::program_of))]
fn slot(of: &ModuleFrame<'_>, id: u32) -> Option<(u32, u32)>
    ensures { result ≡ slot_in (program_of of.now.insts) id }
{
    of.module().ids().slot(id)
}

fn input_origin(of: &ModuleFrame<'_>, id: u32) -> Origin
    ensures { result ≡ input_origin ((program_of of.now.insts).decoration id BUILT_IN)
        ((program_of of.now.insts).decoration id LOCATION) }
{
    if let Some(number) = built_in(of, id) {
        return Origin::BuiltIn(number);
    }
    match location(of, id) {
        Some(location) => Origin::Location(location),
        None => Origin::Cleared,
    }
}

/// Where the words of a variable of this storage class come from.
#[tactic(auto, unfolding(crate::specs::Origins::origin_in))]
pub fn origin_of(of: &ModuleFrame<'_>, id: u32, class: u32) -> Origin
    ensures { result ≡ origin_in (program_of of.now.insts) id class }
{
    if class == storage_class::INPUT {
        return input_origin(of, id);
    }
    if class == storage_class::UNIFORM {
        return match slot(of, id) {
            Some((set, binding)) => Origin::Bound { set, binding },
            None => Origin::Cleared,
        };
    }
    if class == storage_class::PUSH_CONSTANT {
        return Origin::Push;
    }
    Origin::Cleared
}

/// The number that a word has where it comes from, by its number in the variable and the byte offsets of the variable's block.
pub fn index(origin: Origin, offsets: &[u64], at: usize) -> Option<usize>
    ensures { result ≡ index_of origin offsets.now at }
{
    match origin {
        Origin::Cleared => None,
        Origin::BuiltIn(_) | Origin::Location(_) => Some(at),
        Origin::Push | Origin::Bound { .. } => match offsets.get(at) {
            Some(offset) => Some((*offset / 4) as usize),
            None => None,
        },
    }
}

fn built_in_word(inputs: &Inputs, number: u32, index: usize) -> u32
    ensures { result ≡ start.built_in_word inputs.now number index }
{
    if number == builtin::VERTEX_INDEX {
        return inputs.vertex_index;
    }
    if number == builtin::INSTANCE_INDEX {
        return inputs.instance_index;
    }
    if number == builtin::FRAG_COORD {
        return inputs.frag_coord.get(index).copied().unwrap_or(0);
    }
    if number == builtin::FRONT_FACING {
        return u32::from(inputs.front);
    }
    0
}

fn location_word(inputs: &Inputs, location: u32, index: usize) -> u32
    ensures { result ≡ slice_index (slice_index_or inputs.now.slots location []) index }
{
    match inputs.slots.get(location as usize) {
        Some(slot) => slot.get(index).copied().unwrap_or(0),
        None => 0,
    }
}

fn buffer_number(inputs: &Inputs, set: u32, binding: u32) -> Option<u16>
    ensures { result ≡ start.bound_buffer inputs.now (Some set) (Some binding) }
{
    match inputs.uniforms.get(set as usize) {
        Some(bindings) => bindings.get(binding as usize).copied().unwrap_or(None),
        None => None,
    }
}

fn buffer_word(buffers: &Buffers, number: Option<u16>, index: usize) -> u32
    ensures { result ≡ start.buffer_word buffers.now number index }
{
    let Some(number) = number else {
        return 0;
    };
    match buffers.list.as_slice().get(number as usize) {
        Some(words) => words.as_slice().get(index).copied().unwrap_or(0),
        None => 0,
    }
}

/// A word of what is given, by where it comes from and its number there.
pub fn word(origin: Origin, index: usize, inputs: &Inputs, buffers: &Buffers) -> u32
    ensures { result ≡ origin_word inputs.now buffers.now origin index }
{
    match origin {
        Origin::Cleared => 0,
        Origin::BuiltIn(number) => built_in_word(inputs, number, index),
        Origin::Location(location) => location_word(inputs, location, index),
        Origin::Push => inputs.push.get(index).copied().unwrap_or(0),
        Origin::Bound { set, binding } => {
            buffer_word(buffers, buffer_number(inputs, set, binding), index)
        }
    }
}
