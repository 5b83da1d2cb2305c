//! The vertex shader of a draw, run for each vertex of a primitive.
ghost use Rattle.std.specs.Prelude.{◌≡◌, ◌<◌, ◌≤◌, ◌+◌, ◌*◌, ◌^◌, length, IfOk};
ghost use Rattle.state_model.specs.Lawful.{IsVertexPart};
ghost use Rattle.stage_model.specs.Stage.{ended_of};
ghost use Rattle.draw_model.specs.Invocation.{attributes_at, is_drawn, vertex_inputs, vertex_index, instance_index};
ghost use Rattle.int_device.specs.Scenes.{Scene, IsScene, assembled_in, outcome_in, point_of, triangle_of};

use crate::assembled::Assembled;
use crate::unit::count_insts;
use draw_model::{DrawCall, Dynamic};
use limits::{COMPONENTS, LOCATIONS};
use spv_check::Module;
use spv_exec::Prepared;
use stage_model::{Ended, Inputs, Kind};
use state_model::{Buffers, State, Topology};
use std::alloc::{AllocError, Global};
use std::marker::Model;
use vertex_lib::VertexLib;

/// The vertex shader of a draw, ready to run.
#[derive(Drop)]
pub struct Vertices<'a> {
    run: Prepared<'a>,
    library: VertexLib,
    state: &'a State,
    dynamic: &'a Dynamic,
    call: &'a DrawCall,
    buffers: &'a Buffers,
}

impl<'a> Model for Vertices<'a> {
    ghost use Rattle.int_device.specs.Scenes.{Scene, IsScene};

    ghost Value = { Scene };

    ghost view = { λ v. record {
      vs = v.run.words.insts;
      state = v.state.now;
      dynamic = v.dynamic.now;
      call = v.call.now;
      buffers = v.buffers.now;
    } };

    ghost invariant = { λ v. IsScene v.run v.library.part v.state.now };
}

impl<'a> Vertices<'a> {
    /// The shader for a draw. Only want of memory is an error.
    pub fn new(
        alloc: Global,
        shader: &'a Module,
        state: &'a State,
        dynamic: &'a Dynamic,
        call: &'a DrawCall,
        buffers: &'a Buffers,
    ) -> Result<Vertices<'a>, AllocError>
        requires { IsVertexPart state.now.vertex }
        ensures { IfOk result (λ v. v ≡ record {
          vs = shader.now.insts;
          state = state.now;
          dynamic = dynamic.now;
          call = call.now;
          buffers = buffers.now;
        }) }
    {
        let _few = count_insts(shader);
        let run = Prepared::new(alloc, shader, &state.prerast.entries)?;
        Ok(Vertices {
            run,
            library: VertexLib::new(state.vertex),
            state,
            dynamic,
            call,
            buffers,
        })
    }

    // What the invocation of a vertex of an instance leaves.
    fn outcome(&mut self, instance: u32, vertex: u32) -> Ended
        ensures is { result ≡ ended_of (outcome_in self.old instance vertex) }
        ensures bound { result.work ≤ 2 ^ 27 }
        ensures same { self.new ≡ self.old }
    {
        let inputs = inputs_of(
            &self.library,
            self.dynamic,
            self.buffers,
            vertex_index(self.call, vertex),
            instance_index(self.call, instance),
        );
        self.run.run(&inputs, self.buffers)
    }

    /// A primitive of an instance, by its number.
    #[tactic(auto, unfolding(crate::specs::Scenes::assembled_in))]
    pub fn assemble(&mut self, topology: Topology, instance: u32, primitive: u32) -> Assembled
        requires { primitive < 2 ^ 16 }
        ensures is { result ≡ assembled_in self.old topology instance primitive }
        ensures bound { result.work ≤ 2 ^ 29 }
        ensures same { self.new ≡ self.old }
    {
        match topology {
            Topology::Points => point_of(&self.outcome(instance, primitive)),
            Topology::Triangles => {
                let first = 3 * primitive;
                let a = self.outcome(instance, first);
                let b = self.outcome(instance, first + 1);
                let c = self.outcome(instance, first + 2);
                triangle_of(&a, &b, &c)
            }
        }
    }
}

fn vertex_index(call: &DrawCall, number: u32) -> u32
    ensures { result ≡ vertex_index call.now number }
{
    call.first_vertex.wrapping_add(number)
}

fn instance_index(call: &DrawCall, number: u32) -> u32
    ensures { result ≡ instance_index call.now number }
{
    call.first_instance.wrapping_add(number)
}

fn attributes_at(
    library: &VertexLib,
    dynamic: &Dynamic,
    buffers: &Buffers,
    vertex: u32,
    instance: u32,
) -> [[u32; COMPONENTS]; LOCATIONS]
    requires { IsVertexPart library.now.part }
    ensures { result ≡ attributes_at library.now.part dynamic.now buffers.now vertex instance }
{
    let bound = &dynamic.vertex;
    [
        library.fetch(buffers, bound, 0, vertex, instance),
        library.fetch(buffers, bound, 1, vertex, instance),
        library.fetch(buffers, bound, 2, vertex, instance),
        library.fetch(buffers, bound, 3, vertex, instance),
        library.fetch(buffers, bound, 4, vertex, instance),
        library.fetch(buffers, bound, 5, vertex, instance),
        library.fetch(buffers, bound, 6, vertex, instance),
        library.fetch(buffers, bound, 7, vertex, instance),
    ]
}

#[tactic(auto, unfolding(draw_model::specs::Invocation::vertex_inputs))]
fn inputs_of(
    library: &VertexLib,
    dynamic: &Dynamic,
    buffers: &Buffers,
    vertex: u32,
    instance: u32,
) -> Inputs
    requires { IsVertexPart library.now.part }
    ensures { result ≡ vertex_inputs library.now.part dynamic.now buffers.now vertex instance }
{
    Inputs {
        slots: attributes_at(library, dynamic, buffers, vertex, instance),
        vertex_index: vertex,
        instance_index: instance,
        frag_coord: [0; COMPONENTS],
        front: false,
        push: dynamic.push,
        uniforms: dynamic.uniforms,
    }
}

fn is_drawn(kind: Kind) -> bool
    ensures { result ≡ is_drawn kind }
{
    match kind {
        Kind::Done | Kind::Killed => true,
        Kind::Lost => false,
    }
}

fn point_of(a: &Ended) -> Assembled
    ensures { result ≡ point_of a.now }
{
    let corner = a.position;
    Assembled {
        whole: is_drawn(a.kind),
        corners: [corner; 3],
        slots: a.slots,
        work: a.work,
    }
}

fn triangle_of(a: &Ended, b: &Ended, c: &Ended) -> Assembled
    requires a { a.now.work ≤ 2 ^ 27 }
    requires b { b.now.work ≤ 2 ^ 27 }
    requires c { c.now.work ≤ 2 ^ 27 }
    ensures { result ≡ triangle_of a.now b.now c.now }
{
    Assembled {
        whole: is_drawn(a.kind) && is_drawn(b.kind) && is_drawn(c.kind),
        corners: [a.position, b.position, c.position],
        slots: a.slots,
        work: a.work + b.work + c.work,
    }
}
