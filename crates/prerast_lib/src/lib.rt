//! The pre-rasterization library: primitives and the pixels that they cover.
#![tactic(auto)]

mod coverage;
mod culling;
mod spans;

ghost use Rattle.std.specs.Prelude.{◌≡◌};
ghost use Rattle.draw_model.specs.Assembly.{first_vertex};

pub use coverage::covers;
pub use culling::{facing, is_culled};
pub use spans::{columns_of, rows_of};
pub use state_model::{Iface, PrerastPart, Topology};

/// A pre-rasterization shaders library: its part, and its module's interface.
#[derive(Clone, Copy, Debug, PartialEq, Eq)]
pub struct PrerastLib {
    /// The state that it has.
    pub part: PrerastPart,
    /// What the vertex module reads.
    pub inputs: Iface,
    /// What the vertex module writes.
    pub outputs: Iface,
}

impl PrerastLib {
    /// The library with this part, and with its module's inputs and outputs by location.
    pub fn new(part: PrerastPart, inputs: Iface, outputs: Iface) -> PrerastLib
        ensures part { result.part ≡ part }
        ensures inputs { result.inputs ≡ inputs }
        ensures outputs { result.outputs ≡ outputs }
    {
        PrerastLib {
            part,
            inputs,
            outputs,
        }
    }
}

/// The first vertex of primitive `prim` of so many vertices (Vulkan, "Point Lists", "Triangle Lists"); `None` where there
/// are not so many whole primitives.
pub fn assemble(topology: Topology, vertices: u32, prim: u32) -> Option<u32>
    ensures { result ≡ first_vertex topology vertices prim }
{
    match topology {
        Topology::Points => (prim < vertices).then_some(prim),
        Topology::Triangles => (prim < vertices / 3).then(|| 3 * prim),
    }
}
