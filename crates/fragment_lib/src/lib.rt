//! The fragment shader library: the depth test.
#![tactic(auto)]

ghost use Rattle.std.specs.Prelude.{◌≡◌, ◌≤◌};
ghost use Rattle.draw_model.specs.Pixel.{passes_depth};

use state_model::vulkan::{
    COMPARE_OP_ALWAYS, COMPARE_OP_EQUAL, COMPARE_OP_GREATER, COMPARE_OP_GREATER_OR_EQUAL,
    COMPARE_OP_LESS, COMPARE_OP_LESS_OR_EQUAL, COMPARE_OP_NEVER, COMPARE_OP_NOT_EQUAL,
};
pub use state_model::{FragmentPart, Iface};

/// A fragment shader library: its part, and its module's interface.
#[derive(Clone, Copy, Debug, PartialEq, Eq)]
pub struct FragmentLib {
    /// The state that it has.
    pub part: FragmentPart,
    /// What the fragment module reads.
    pub inputs: Iface,
    /// What the fragment module writes.
    pub outputs: Iface,
}

impl FragmentLib {
    /// The library with this part, and with its module's inputs and outputs by location.
    pub fn new(part: FragmentPart, inputs: Iface, outputs: Iface) -> FragmentLib
        ensures part { result.part ≡ part }
        ensures inputs { result.inputs ≡ inputs }
        ensures outputs { result.outputs ≡ outputs }
    {
        FragmentLib {
            part,
            inputs,
            outputs,
        }
    }
}

/// Whether the comparison holds of the new and the old depth, both signed (Vulkan, "Depth Test"). `compare` is one of
/// the `COMPARE_OP`s of `state_model::vulkan`.
pub fn depth_passes(compare: u8, new: u32, old: u32) -> bool
    requires { compare ≤ COMPARE_OP_ALWAYS }
    ensures { result ≡ passes_depth compare new old }
{
    let new = new.cast_signed();
    let old = old.cast_signed();
    match compare {
        COMPARE_OP_NEVER => false,
        COMPARE_OP_LESS => new < old,
        COMPARE_OP_EQUAL => new == old,
        COMPARE_OP_LESS_OR_EQUAL => new <= old,
        COMPARE_OP_GREATER => new > old,
        COMPARE_OP_NOT_EQUAL => new != old,
        COMPARE_OP_GREATER_OR_EQUAL => new >= old,
        _ => true,
    }
}
