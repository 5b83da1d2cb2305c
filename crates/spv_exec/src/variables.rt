ghost use Rattle.std.specs.Prelude.{◌≡◌, ℕ, ◌+◌, ◌<◌, ◌≤◌, ◌==◌, ◌^◌, ◌++◌, if◌then◌else◌, length, replicate, slice_index, IfOk, OnOk};
ghost use Rattle.spirv_model.specs.declared.module.Words.{Words};
ghost use Rattle.stage_model.specs.Program.{program_of};
ghost use Rattle.stage_model.specs.Start.{Memory, first_memory};
ghost use Rattle.stage_model.specs.Stage.{position_left, slots_left};
ghost use Rattle.frame_model.specs.Frame.{memory_place};
ghost use Rattle.frame_model.specs.Shown.{ShowsMemory};
ghost use Rattle.spv_exec.specs.Variables.{AddsWords, AreFills, IsVariables, filled, one_fill};

use crate::block_offsets::block_offsets;
use crate::module_frame::ModuleFrame;
use crate::origins::{Origin, index, origin_of, word};
use crate::outputs::{Outputs, outputs_of, put_position, put_slots};
use limits::{COMPONENTS, LOCATIONS};
use spirv_model::op;
use spv_check::Module;
use stage_model::Inputs;
use state_model::Buffers;
use std::alloc::{AllocError, Global};
use std::marker::Model;
use valid_model::Meaning;

/// A word of the memory that is filled in before a run begins: its place, where it comes from, and its number there.
#[derive(Clone, Copy, Debug, Drop)]
pub struct Fill {
    pub at: usize,
    pub index: usize,
    pub origin: Origin,
}

/// What a run fills into the memory before it begins, and where it finds what is left. It is seen as the module's instructions and
/// bound.
#[derive(Drop)]
pub struct Variables<'m> {
    module: &'m Module,
    fills: Vec<Fill>,
    outputs: Outputs,
}

impl<'m> Model for Variables<'m> {
    ghost Value = { Words };

    ghost view = { λ v. v.module.now };

    ghost invariant = { λ v. IsVariables v.module.now v.fills.items v.outputs };
}

impl<'m> Variables<'m> {
    /// Those of a module.
    pub fn new(alloc: Global, of: &ModuleFrame<'m>) -> Result<Variables<'m>, AllocError>
        ensures { IfOk result (λ variables. variables ≡ of.now) }
    {
        let fills = fills(alloc, of)?;
        Ok(Variables {
            module: of.module(),
            fills,
            outputs: outputs_of(of),
        })
    }

    /// Clears the memory, and fills in inputs, uniforms and push constants.
    pub fn fill(&self, inputs: &Inputs, buffers: &Buffers, memory: &mut [u32])
        requires { length memory.old
            ≡ memory_place (program_of self.now.insts) (length self.now.insts) }
        ensures { ShowsMemory (program_of self.now.insts) memory.new
            (first_memory (program_of self.now.insts) inputs.now buffers.now) }
    {
        fill_in(self.fills.as_slice(), inputs, buffers, memory);
    }

    /// Puts what the outputs hold in the place of zeros, which stay where there is no such output, and in the components that
    /// it lacks.
    pub fn leave(
        &self,
        memory: &[u32],
        position: &mut [u32; COMPONENTS],
        slots: &mut [[u32; COMPONENTS]; LOCATIONS],
    )
        requires size { length memory.now
            ≡ memory_place (program_of self.now.insts) (length self.now.insts) }
        requires no_position { position.old ≡ replicate COMPONENTS 0 }
        requires no_slots { slots.old ≡ replicate LOCATIONS (replicate COMPONENTS 0) }
        ensures position { (held : Memory) → ShowsMemory (program_of self.now.insts) memory.now held
            → position.new ≡ position_left (program_of self.now.insts) held }
        ensures slots { (held : Memory) → ShowsMemory (program_of self.now.insts) memory.now held
            → slots.new ≡ slots_left (program_of self.now.insts) held }
    {
        put_position(memory, &self.outputs, position);
        put_slots(memory, &self.outputs, slots);
    }
}

/// What is filled in for the variables of a module.
fn fills(alloc: Global, of: &ModuleFrame<'_>) -> Result<Vec<Fill>, AllocError>
    ensures { IfOk result
        (λ fills. AreFills (program_of of.now.insts) (length of.now.insts) fills.items) }
{
    let mut fills = Vec::new(alloc);
    for place in 0..of.count() {
        add_variable(alloc, &mut fills, of, place)?;
    }
    Ok(fills)
}

/// Adds the words of the variable that the instruction at this place makes, where it makes one.
fn add_variable(
    alloc: Global,
    fills: &mut Vec<Fill>,
    of: &ModuleFrame<'_>,
    place: usize,
) -> Result<(), AllocError>
    requires within { place < length of.now.insts }
    requires fits { place + 1 < 2 ^ 64 }
    requires before { AreFills (program_of of.now.insts) place fills.old.items }
    ensures { OnOk result (AreFills (program_of of.now.insts) (place + 1) fills.new.items) }
{
    let inst = of.inst(place);
    let (start, end) = (of.memory_place(place), of.memory_place(place + 1));
    if inst.op != op::VARIABLE {
        return Ok(());
    }
    let Meaning::Variable { ty, class } = of.meaning(inst.word(1)) else {
        return Ok(());
    };
    let origin = origin_of(of, inst.word(1), u32::from(*class));
    let offsets = block_offsets(alloc, of, of.meaning(*ty))?;
    add_words(fills, origin, offsets.as_slice(), start, end)?;
    Ok(())
}

/// Adds the words of a variable that stand at these places.
fn add_words(
    fills: &mut Vec<Fill>,
    origin: Origin,
    offsets: &[u64],
    start: usize,
    end: usize,
) -> Result<(), AllocError>
    requires { start ≤ end }
    ensures { OnOk result (AddsWords origin offsets.now start end fills.old.items fills.new.items) }
{
    for at in start..end {
        add_word(fills, origin, index(origin, offsets, at - start), at)?;
    }
    Ok(())
}

/// Adds the word at a place, which has this number where it comes from, if it has one.
fn add_word(
    fills: &mut Vec<Fill>,
    origin: Origin,
    index: Option<usize>,
    at: usize,
) -> Result<(), AllocError>
    ensures { OnOk result (fills.new.items ≡ fills.old.items ++ one_fill origin at index) }
{
    if let Some(index) = index {
        fills.push(Fill { at, index, origin })?;
    }
    Ok(())
}

/// Clears the memory, and fills the words in.
fn fill_in(fills: &[Fill], inputs: &Inputs, buffers: &Buffers, memory: &mut [u32])
    ensures { (at : ℕ) → at < length memory.old
        → slice_index memory.new at ≡ filled inputs.now buffers.now fills.now at }
{
    clear(memory);
    for fill in fills {
        let word = word(fill.origin, fill.index, inputs, buffers);
        fill_word(memory, fill.at, word);
    }
}

fn clear(memory: &mut [u32])
    ensures { (at : ℕ) → at < length memory.old → slice_index memory.new at ≡ 0 }
{
    for at in 0..memory.len() {
        memory[at] = 0;
    }
}

fn fill_word(memory: &mut [u32], at: usize, word: u32)
    ensures { (other : ℕ) → other < length memory.old
        → slice_index memory.new other ≡ (if at == other then word else slice_index memory.old other) }
{
    if at < memory.len() {
        memory[at] = word;
    }
}
