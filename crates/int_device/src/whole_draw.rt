//! A whole draw.
ghost use Rattle.std.specs.Prelude.{◌≡◌, ◌<◌, ◌≤◌, length, slice_index, IfOk, OnOk, OnErr, IfSome};
ghost use Rattle.state_model.specs.Lawful.{IsFragmentPart, IsOutputPart};
ghost use Rattle.draw_model.specs.LawfulDraw.{LawfulDraw, IsCall, IsSide};
ghost use Rattle.draw_model.specs.WholeDraw.{effort, image, primitive_count, primitives};
ghost use Rattle.int_device.specs.Modules.{fragment_insts, insts_of};
ghost use Rattle.int_device.specs.Scenes.{DrawsAll, HasDynamic, shade_of};

use crate::canvas::Canvas;
use crate::drawing::draw_instances;
use crate::shading::Shading;
use crate::unit::Unit;
use crate::vertices::Vertices;
use draw_model::{DrawCall, Dynamic, Targets};
use limits::MODULE_WORDS;
use spv_check::Module;
use state_model::{Buffers, State, Topology};
use std::alloc::{AllocError, Global};

/// Draws as `draw_modules` does, with the modules of a unit.
pub fn draw(
    alloc: Global,
    unit: &Unit,
    state: &State,
    dynamic: &Dynamic,
    call: &DrawCall,
    buffers: &Buffers,
    targets: &mut Targets,
) -> Result<u64, AllocError>
    requires { LawfulDraw unit.now.vertex.insts (fragment_insts unit.now)
        state.now dynamic.now call.now buffers.now targets.old }
    ensures image { OnOk result (targets.new ≡ image unit.now.vertex.insts (fragment_insts unit.now)
        state.now dynamic.now call.now buffers.now targets.old) }
    ensures work { IfOk result (λ work. work
        ≡ effort unit.now.vertex.insts (fragment_insts unit.now)
        state.now dynamic.now call.now buffers.now) }
    ensures err { OnErr result (targets.new ≡ targets.old) }
{
    draw_modules(
        alloc,
        unit.vertex(),
        unit.fragment(),
        state,
        dynamic,
        call,
        buffers,
        targets,
    )
}

/// Draws (Vulkan specification, "Drawing Commands", `vkCmdDraw`) into the targets that are bound, and answers the work: the
/// steps of all shader invocations. There is no fragment module where rasterization is discarded. Only want of memory is an
/// error, and then nothing is drawn.
pub fn draw_modules(
    alloc: Global,
    vertex: &Module,
    fragment: Option<&Module>,
    state: &State,
    dynamic: &Dynamic,
    call: &DrawCall,
    buffers: &Buffers,
    targets: &mut Targets,
) -> Result<u64, AllocError>
    requires { LawfulDraw vertex.now.insts (insts_of fragment)
        state.now dynamic.now call.now buffers.now targets.old }
    ensures image { OnOk result (targets.new ≡ image vertex.now.insts
        (insts_of fragment.entry) state.now dynamic.now call.now buffers.now targets.old) }
    ensures work { IfOk result (λ work. work ≡ effort vertex.now.insts
        (insts_of fragment.entry) state.now dynamic.now call.now buffers.now) }
    ensures err { OnErr result (targets.new ≡ targets.old) }
{
    let mut vertices = Vertices::new(alloc, vertex, state, dynamic, call, buffers)?;
    let mut shading = shading_of(alloc, fragment, state, dynamic, buffers)?;
    let mut canvas = Canvas::open(alloc, targets)?;
    let work = draw_primitives(&mut vertices, &mut shading, state, call, &mut canvas);
    canvas.close(targets);
    Ok(work)
}

// The fragment stage, where there is a module for it and the state has one.
fn shading_of<'a>(
    alloc: Global,
    fragment: Option<&'a Module>,
    state: &'a State,
    dynamic: &'a Dynamic,
    buffers: &'a Buffers,
) -> Result<Option<Shading<'a>>, AllocError>
    requires part { IfSome state.now.fragment IsFragmentPart }
    requires output { IfSome state.now.output IsOutputPart }
    requires scissor_x { let sides = dynamic.now.scissor in
        IsSide (slice_index sides 0) (slice_index sides 2) }
    requires scissor_y { let sides = dynamic.now.scissor in
        IsSide (slice_index sides 1) (slice_index sides 3) }
    ensures { IfOk result
        (λ s. s ≡ shade_of (insts_of fragment.entry) state.now dynamic.now buffers.now) }
{
    let Some(shader) = fragment else {
        return Ok(None);
    };
    let Some(part) = &state.fragment else {
        return Ok(None);
    };
    let Some(output) = &state.output else {
        return Ok(None);
    };
    let shading = Shading::new(alloc, shader, part, output, dynamic, buffers)?;
    Ok(Some(shading))
}

fn draw_primitives(
    vertices: &mut Vertices,
    shading: &mut Option<Shading>,
    state: &State,
    call: &DrawCall,
    canvas: &mut Canvas,
) -> u64
    requires counts { IsCall call.now }
    requires state { state.now ≡ vertices.old.state }
    requires call { call.now ≡ vertices.old.call }
    requires dynamic { HasDynamic shading.old vertices.old.dynamic }
    ensures { let v = vertices.old in DrawsAll v shading.old canvas.old canvas.new result
        (primitives v.vs v.state v.dynamic v.call v.buffers) }
{
    let count = primitive_count(state.vertex.topology, call.vertices);
    if count == 0 {
        return 0;
    }
    draw_instances(vertices, shading, state, count, call.instances, canvas)
}

fn primitive_count(topology: Topology, vertices: u32) -> u32
    ensures is { result ≡ primitive_count topology vertices }
    ensures few { result ≤ vertices }
{
    match topology {
        Topology::Points => vertices,
        Topology::Triangles => vertices / 3,
    }
}
