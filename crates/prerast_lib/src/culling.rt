ghost use Rattle.std.specs.Prelude.{◌≡◌};
ghost use Rattle.prerast_lib.specs.Guarded.{facing_of, triangle_facing};
ghost use Rattle.draw_model.specs.WholeDraw.{is_culled};

use crate::coverage::{edge_value, is_guarded, position_of};
use draw_model::Position;
use limits::COMPONENTS;
use state_model::Topology;

/// Whether a primitive is front-facing (Vulkan, "Basic Polygon Rasterization"): a triangle by the sign of its area, and
/// points always. `None` where a corner that counts is outside the guard band, so that it covers nothing.
pub fn facing(topology: Topology, ccw: bool, corners: &[[u32; COMPONENTS]; 3]) -> Option<bool>
    ensures { result ≡ facing_of topology ccw corners.now }
{
    let a = position_of(&corners[0]);
    match topology {
        Topology::Points => is_guarded(a).then_some(true),
        Topology::Triangles => triangle_facing(
            ccw,
            a,
            position_of(&corners[1]),
            position_of(&corners[2]),
        ),
    }
}

fn triangle_facing(ccw: bool, a: Position, b: Position, c: Position) -> Option<bool>
    ensures { result ≡ triangle_facing ccw a b c }
{
    if is_guarded(a) && is_guarded(b) && is_guarded(c) {
        let area = edge_value(a, b, c);
        Some(if ccw { area < 0 } else { 0 < area })
    } else {
        None
    }
}

/// Whether a primitive of this facing is culled (Vulkan, "Basic Polygon Rasterization"). `cull` is one of the
/// `CULL_MODE`s of `state_model::vulkan`; points stay.
pub fn is_culled(topology: Topology, cull: u8, front: bool) -> bool
    ensures { result ≡ is_culled topology cull front }
{
    match topology {
        Topology::Points => false,
        Topology::Triangles => {
            if front {
                cull % 2 == 1
            } else {
                cull / 2 % 2 == 1
            }
        }
    }
}
