//! The primitives of a draw, one by one.
ghost use Rattle.std.specs.Prelude.{◌≡◌, ◌<◌, ◌≤◌, ◌*◌, ◌^◌, [], ◌∷◌, Some, IfSome};
ghost use Rattle.draw_model.specs.WholeDraw.{primitive_count};
ghost use Rattle.int_device.specs.Draws.{Draws};
ghost use Rattle.int_device.specs.Scenes.{DrawsAll, DrawsIf, HasDynamic, fragments_assembled, fragments_faced, fragments_if, outcomes_in, primitives_in, primitives_until};

use crate::assembled::Assembled;
use crate::canvas::Canvas;
use crate::primitive::Primitive;
use crate::shading::Shading;
use crate::vertices::Vertices;
use draw_model::DrawCall;
use prerast_lib::{facing, is_culled};
use state_model::{PrerastPart, State, Topology};

// A whole primitive that faces so.
fn draw_faced(
    shading: &mut Shading,
    topology: Topology,
    part: &PrerastPart,
    a: &Assembled,
    front: bool,
    canvas: &mut Canvas,
) -> u64
    ensures draws { Draws shading.old canvas.old canvas.new result
        (fragments_faced topology part.now shading.old.dynamic a.now (Some front)) }
    ensures bound { result ≤ 2 ^ 45 }
    ensures same { shading.new ≡ shading.old }
{
    if is_culled(topology, part.cull, front) {
        return 0;
    }
    let corners = a.corners;
    let slots = a.slots;
    let p = Primitive {
        topology,
        corners,
        front,
        slots,
    };
    shading.rasterize(&p, part.view_mask, canvas)
}

#[tactic(auto, unfolding(crate::specs::Scenes::fragments_assembled))]
fn draw_assembled(
    shading: &mut Shading,
    topology: Topology,
    part: &PrerastPart,
    a: &Assembled,
    canvas: &mut Canvas,
) -> u64
    ensures draws { Draws shading.old canvas.old canvas.new result
        (fragments_assembled topology part.now shading.old.dynamic a.now) }
    ensures bound { result ≤ 2 ^ 45 }
    ensures same { shading.new ≡ shading.old }
{
    if !a.whole {
        return 0;
    }
    match facing(topology, part.ccw, &a.corners) {
        Some(front) => draw_faced(shading, topology, part, a, front, canvas),
        None => 0,
    }
}

// Where there is a fragment stage.
fn draw_if(
    shading: &mut Option<Shading>,
    topology: Topology,
    part: &PrerastPart,
    a: &Assembled,
    canvas: &mut Canvas,
) -> u64
    ensures draws { DrawsIf shading.old canvas.old canvas.new result
        (fragments_if shading.old topology part.now a.now) }
    ensures bound { result ≤ 2 ^ 45 }
    ensures same { shading.new ≡ shading.old }
{
    match shading {
        Some(shading) => draw_assembled(shading, topology, part, a, canvas),
        None => 0,
    }
}

fn draw_primitive(
    vertices: &mut Vertices,
    shading: &mut Option<Shading>,
    state: &State,
    instance: u32,
    primitive: u32,
    canvas: &mut Canvas,
) -> u64
    requires primitive { primitive < 2 ^ 16 }
    requires state { state.now ≡ vertices.old.state }
    requires dynamic { HasDynamic shading.old vertices.old.dynamic }
    ensures draws { DrawsAll vertices.old shading.old canvas.old canvas.new result
        (outcomes_in vertices.old instance primitive ∷ []) }
    ensures bound { result ≤ 2 ^ 46 }
    ensures vertices { vertices.new ≡ vertices.old }
    ensures shading { shading.new ≡ shading.old }
{
    let topology = state.vertex.topology;
    let a = vertices.assemble(topology, instance, primitive);
    a.work + draw_if(shading, topology, &state.prerast, &a, canvas)
}

// So many primitives of an instance.
fn draw_instance(
    vertices: &mut Vertices,
    shading: &mut Option<Shading>,
    state: &State,
    count: u32,
    instance: u32,
    canvas: &mut Canvas,
) -> u64
    requires few { count ≤ 2 ^ 16 }
    requires state { state.now ≡ vertices.old.state }
    requires dynamic { HasDynamic shading.old vertices.old.dynamic }
    ensures draws { DrawsAll vertices.old shading.old canvas.old canvas.new result
        (primitives_in vertices.old count instance) }
    ensures bound { result ≤ count * 2 ^ 46 }
    ensures vertices { vertices.new ≡ vertices.old }
    ensures shading { shading.new ≡ shading.old }
{
    let mut work = 0;
    for primitive in 0..count {
        work += draw_primitive(vertices, shading, state, instance, primitive, canvas);
    }
    work
}

/// So many primitives of so many instances.
pub fn draw_instances(
    vertices: &mut Vertices,
    shading: &mut Option<Shading>,
    state: &State,
    count: u32,
    instances: u32,
    canvas: &mut Canvas,
) -> u64
    requires some { 0 < count }
    requires few { count * instances ≤ 2 ^ 16 }
    requires state { state.now ≡ vertices.old.state }
    requires dynamic { HasDynamic shading.old vertices.old.dynamic }
    ensures { DrawsAll vertices.old shading.old canvas.old canvas.new result
        (primitives_until vertices.old count instances) }
{
    let mut work = 0;
    for instance in 0..instances {
        work += draw_instance(vertices, shading, state, count, instance, canvas);
    }
    work
}
