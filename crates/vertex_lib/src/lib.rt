//! The vertex input library: what an attribute reads.
#![tactic(auto)]

ghost use Rattle.std.specs.Prelude.{◌≡◌, ◌<◌, ◌≤◌, IfSome, ℕ, ◌+◌, ◌*◌, ◌^◌};
ghost use Rattle.state_model.specs.Lawful.{IsVertexPart, IsVertexBinding, IsAttribute};
ghost use Rattle.draw_model.specs.Fetch.{input_at, buffer_word, attribute_start, attribute_component, components};

use limits::{COMPONENTS, LOCATIONS, VERTEX_BINDINGS};
use state_model::{Attribute, VertexBinding};
pub use state_model::{Buffers, VertexPart};

/// A vertex input interface library.
#[derive(Clone, Copy, Debug, PartialEq, Eq)]
pub struct VertexLib {
    /// The state that it has.
    pub part: VertexPart,
}

impl VertexLib {
    /// The library with this part.
    pub fn new(part: VertexPart) -> VertexLib
        ensures { result.part ≡ part }
    {
        VertexLib { part }
    }

    /// The four words that the vertex shader's input at a location reads for a vertex of an instance, from the buffers that
    /// are bound by their numbers (Vulkan, "Vertex Input Address Calculation"). Strides and offsets are in 32-bit words. A
    /// word out of its buffer, or without a buffer, is 0, and so are the components that the attribute lacks and all four
    /// where there is no attribute.
    #[tactic(auto, unfolding(draw_model::specs::Fetch::input_at))]
    pub fn fetch(
        &self,
        buffers: &Buffers,
        bound: &[Option<u16>; VERTEX_BINDINGS],
        location: u8,
        vertex: u32,
        instance: u32,
    ) -> [u32; COMPONENTS]
        requires location { location < LOCATIONS }
        requires part { IsVertexPart self.now.part }
        ensures { result ≡ input_at self.now.part buffers.now bound.now location vertex instance }
    {
        let Some(attribute) = self.part.attributes[usize::from(location)] else {
            return [0; COMPONENTS];
        };
        let number = usize::from(attribute.binding);
        let Some(binding) = self.part.bindings[number] else {
            return [0; COMPONENTS];
        };
        let start = start_of(binding, attribute, vertex, instance);
        read_components(buffers, bound[number], attribute, start)
    }
}

// Where the attribute begins, in words.
fn start_of(binding: VertexBinding, attribute: Attribute, vertex: u32, instance: u32) -> u64
    requires binding { IsVertexBinding binding }
    requires attribute { IsAttribute attribute }
    ensures value { result ≡ attribute_start binding attribute vertex instance }
    ensures bound { result < 2 ^ 43 }
{
    let index = if binding.per_instance {
        instance
    } else {
        vertex
    };
    u64::from(binding.stride) * u64::from(index) + u64::from(attribute.offset)
}

fn word_of(buffers: &Buffers, number: Option<u16>, at: usize) -> u32
    ensures { result ≡ buffer_word buffers.now number at }
{
    let Some(number) = number else {
        return 0;
    };
    let Some(words) = buffers.list.get(usize::from(number)) else {
        return 0;
    };
    words.get(at).copied().unwrap_or(0)
}

fn read_components(
    buffers: &Buffers,
    number: Option<u16>,
    attribute: Attribute,
    start: u64,
) -> [u32; COMPONENTS]
    requires { start < 2 ^ 43 }
    ensures { result ≡ components (attribute_component buffers.now number attribute start) }
{
    let mut words = [0; COMPONENTS];
    for i in 0..COMPONENTS {
        words[i] = if i < usize::from(attribute.comps) {
            word_of(buffers, number, start as usize + i)
        } else {
            0
        };
    }
    words
}
