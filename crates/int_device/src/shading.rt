//! The fragment shader of a draw, run for each fragment of a primitive.
ghost use Rattle.std.specs.Prelude.{◌≡◌, ◌<◌, ◌≤◌, ◌+◌, ◌^◌, [], ◌∷◌, length, slice_index, IfOk, if◌then◌else◌};
ghost use Rattle.state_model.specs.Lawful.{IsFragmentPart, IsOutputPart};
ghost use Rattle.stage_model.specs.Stage.{ended_of};
ghost use Rattle.draw_model.specs.Invocation.{writes};
ghost use Rattle.draw_model.specs.LawfulDraw.{IsSide};
ghost use Rattle.draw_model.specs.WholeDraw.{fragment_outcome};
ghost use Rattle.int_device.specs.SampleRules.{AreRules, IsPlace, rules_of, samples_by, told};
ghost use Rattle.int_device.specs.Draws.{Draws, Shade, IsShading, IsGiven, given_by, fragments_at, fragments_in_row, fragments_in_layer, fragments_if_masked, fragments_in_layers, fragment_by, fragments_by, some_mask};

use crate::canvas::Canvas;
use crate::fragment::Fragment;
use crate::primitive::Primitive;
use crate::sample_rules::{SampleRules, rules_of};
use crate::samples::{is_in_mask, write_samples};
use crate::unit::count_insts;
use draw_model::Dynamic;
use limits::{COMPONENTS, LOCATIONS, MAX_SIDE};
use prerast_lib::{columns_of, covers, rows_of};
use spv_check::Module;
use spv_exec::Prepared;
use stage_model::{Ended, Inputs, Kind};
use state_model::{Buffers, FragmentPart, OutputPart, VIEWS};
use std::alloc::{AllocError, Global};
use std::marker::Model;

/// The fragment shader of a draw, ready to run, and what becomes of its fragments.
#[derive(Drop)]
pub struct Shading<'a> {
    run: Prepared<'a>,
    part: FragmentPart,
    output: OutputPart,
    dynamic: &'a Dynamic,
    buffers: &'a Buffers,
    rules: SampleRules,
    // What the last invocation was given.
    inputs: Inputs,
}

impl<'a> Model for Shading<'a> {
    ghost use Rattle.int_device.specs.Draws.{Shade, IsShading};

    ghost Value = { Shade };

    ghost view = { λ s. record {
      stage = record { insts = s.run.words.insts; part = s.part; output = s.output };
      dynamic = s.dynamic.now;
      buffers = s.buffers.now;
    } };

    ghost invariant = { λ s. IsShading s.run s.part s.output s.dynamic.now s.rules s.inputs };
}

impl<'a> Shading<'a> {
    /// The shader with these parts. Only want of memory is an error.
    pub fn new(
        alloc: Global,
        shader: &'a Module,
        part: &FragmentPart,
        output: &OutputPart,
        dynamic: &'a Dynamic,
        buffers: &'a Buffers,
    ) -> Result<Shading<'a>, AllocError>
        requires part { IsFragmentPart part.now }
        requires output { IsOutputPart output.now }
        requires scissor_x { let sides = dynamic.now.scissor in
            IsSide (slice_index sides 0) (slice_index sides 2) }
        requires scissor_y { let sides = dynamic.now.scissor in
            IsSide (slice_index sides 1) (slice_index sides 3) }
        ensures { IfOk result (λ s. s ≡ record {
          stage = record { insts = shader.now.insts; part = part.now; output = output.now };
          dynamic = dynamic.now;
          buffers = buffers.now;
        }) }
    {
        let _few = count_insts(shader);
        let run = Prepared::new(alloc, shader, &part.entries)?;
        Ok(Shading {
            run,
            part: *part,
            output: *output,
            dynamic,
            buffers,
            rules: rules_of(shader, part, output, dynamic),
            inputs: first_inputs(dynamic),
        })
    }

    // What the invocation of a fragment leaves.
    fn outcome(&mut self, f: &Fragment<'_>) -> Ended
        ensures is { let s = self.old in
            result ≡ ended_of (fragment_outcome s.stage s.dynamic s.buffers (told f.now)) }
        ensures bound { result.work ≤ 2 ^ 27 }
        ensures same { self.new ≡ self.old }
    {
        give(&mut self.inputs, f);
        self.run.run(&self.inputs, self.buffers)
    }

    // One fragment: its invocation, and the samples that it writes.
    fn shade(&mut self, f: &Fragment<'_>, canvas: &mut Canvas) -> u64
        requires { IsPlace f.now }
        ensures draws { Draws self.old canvas.old canvas.new result (told f.now ∷ []) }
        ensures bound { result ≤ 2 ^ 27 }
        ensures same { self.new ≡ self.old }
    {
        let ended = self.outcome(f);
        write_outcome(canvas, &self.rules, f, &ended);
        ended.work
    }

    // A pixel, where the primitive covers it.
    fn pixel(&mut self, p: &Primitive, layer: u8, y: u32, x: u32, canvas: &mut Canvas) -> u64
        requires x { x < MAX_SIDE }
        requires y { y < MAX_SIDE }
        ensures draws { Draws self.old canvas.old canvas.new result (fragments_at p.now layer y x) }
        ensures bound { result ≤ 2 ^ 27 }
        ensures same { self.new ≡ self.old }
    {
        if !covers(p.topology, &p.corners, x, y) {
            return 0;
        }
        let f = fragment_by(p, layer, y, x);
        self.shade(&f, canvas)
    }

    // So many columns of a row.
    fn row(
        &mut self,
        p: &Primitive,
        left: u32,
        width: u32,
        layer: u8,
        y: u32,
        canvas: &mut Canvas,
    ) -> u64
        requires columns { left + width ≤ MAX_SIDE }
        requires y { y < MAX_SIDE }
        ensures draws { Draws self.old canvas.old canvas.new result
            (fragments_in_row p.now left width layer y) }
        ensures bound { result ≤ 2 ^ 35 }
        ensures same { self.new ≡ self.old }
    {
        let mut work = 0;
        for i in 0..width {
            work += self.pixel(p, layer, y, left + i, canvas);
        }
        work
    }

    // So many rows of a layer.
    fn layer(
        &mut self,
        p: &Primitive,
        columns: (u32, u32),
        rows: (u32, u32),
        layer: u8,
        canvas: &mut Canvas,
    ) -> u64
        requires columns { columns.0 + columns.1 ≤ MAX_SIDE }
        requires rows { rows.0 + rows.1 ≤ MAX_SIDE }
        ensures draws { Draws self.old canvas.old canvas.new result
            (fragments_in_layer p.now columns.0 columns.1 rows.0 rows.1 layer) }
        ensures bound { result ≤ 2 ^ 43 }
        ensures same { self.new ≡ self.old }
    {
        let (left, width) = columns;
        let (top, height) = rows;
        let mut work = 0;
        for i in 0..height {
            work += self.row(p, left, width, layer, top + i, canvas);
        }
        work
    }

    // A layer, where the mask has it.
    fn masked_layer(
        &mut self,
        p: &Primitive,
        columns: (u32, u32),
        rows: (u32, u32),
        mask: u8,
        layer: u8,
        canvas: &mut Canvas,
    ) -> u64
        requires columns { columns.0 + columns.1 ≤ MAX_SIDE }
        requires rows { rows.0 + rows.1 ≤ MAX_SIDE }
        requires layer { layer < VIEWS }
        ensures draws { Draws self.old canvas.old canvas.new result
            (fragments_if_masked p.now columns.0 columns.1 rows.0 rows.1 mask layer) }
        ensures bound { result ≤ 2 ^ 43 }
        ensures same { self.new ≡ self.old }
    {
        if is_in_mask(mask, layer) {
            self.layer(p, columns, rows, layer, canvas)
        } else {
            0
        }
    }

    // The layers of a mask.
    fn layers(
        &mut self,
        p: &Primitive,
        columns: (u32, u32),
        rows: (u32, u32),
        mask: u8,
        canvas: &mut Canvas,
    ) -> u64
        requires columns { columns.0 + columns.1 ≤ MAX_SIDE }
        requires rows { rows.0 + rows.1 ≤ MAX_SIDE }
        ensures draws { Draws self.old canvas.old canvas.new result
            (fragments_in_layers p.now columns.0 columns.1 rows.0 rows.1 mask VIEWS) }
        ensures bound { result ≤ 2 ^ 45 }
        ensures same { self.new ≡ self.old }
    {
        let mut work = 0;
        for layer in 0..VIEWS as u8 {
            work += self.masked_layer(p, columns, rows, mask, layer, canvas);
        }
        work
    }

    /// Draws the fragments of a primitive: those in the scissor, in the layers of the view mask.
    pub fn rasterize(&mut self, p: &Primitive, view_mask: u8, canvas: &mut Canvas) -> u64
        ensures draws { Draws self.old canvas.old canvas.new result
            (fragments_by p.now self.old.dynamic view_mask) }
        ensures bound { result ≤ 2 ^ 45 }
        ensures same { self.new ≡ self.old }
    {
        let scissor = self.dynamic.scissor;
        let columns = columns_of(&p.corners, scissor[0], scissor[2]);
        let rows = rows_of(&p.corners, scissor[1], scissor[3]);
        self.layers(p, columns, rows, layers_of(view_mask), canvas)
    }
}

fn fragment_by(p: &Primitive, layer: u8, y: u32, x: u32) -> Fragment<'_>
    ensures is { told result ≡ fragment_by p.now layer y x }
    ensures x { result.x ≡ x }
    ensures y { result.y ≡ y }
{
    Fragment {
        layer,
        x,
        y,
        depth: p.corners[0][2],
        front: p.front,
        slots: &p.slots,
    }
}

// The samples that a fragment's invocation writes with what it leaves.
fn write_outcome(canvas: &mut Canvas, rules: &SampleRules, f: &Fragment<'_>, ended: &Ended)
    requires within { IsPlace f.now }
    requires rules { AreRules rules.now }
    ensures { canvas.new ≡ (if writes ended.now.kind
        then samples_by rules.now (told f.now) ended.now.slots canvas.old
        else canvas.old) }
{
    if writes(ended.kind) {
        write_samples(canvas, rules, f, &ended.slots);
    }
}

// What no fragment has of its own.
#[tactic(auto, unfolding(draw_model::specs::Invocation::fragment_inputs))]
fn first_inputs(dynamic: &Dynamic) -> Inputs
    ensures { IsGiven dynamic.now result }
{
    Inputs {
        slots: [[0; COMPONENTS]; LOCATIONS],
        vertex_index: 0,
        instance_index: 0,
        frag_coord: [0; COMPONENTS],
        front: false,
        push: dynamic.push,
        uniforms: dynamic.uniforms,
    }
}

// Gives what is a fragment's own; all else stays.
fn give(inputs: &mut Inputs, f: &Fragment<'_>)
    ensures { inputs.new ≡ given_by inputs.old (told f.now) }
{
    inputs.slots = *f.slots;
    inputs.frag_coord = [f.x, f.y, f.depth, 0];
    inputs.front = f.front;
}

fn writes(kind: Kind) -> bool
    ensures { result ≡ writes kind }
{
    match kind {
        Kind::Done => true,
        Kind::Killed | Kind::Lost => false,
    }
}

// Without views it is layer 0.
fn layers_of(view_mask: u8) -> u8
    ensures { result ≡ some_mask view_mask }
{
    if view_mask == 0 { 1 } else { view_mask }
}
