//! Where the words of output variables lie in the memory.
ghost use Rattle.std.specs.Prelude.{◌≡◌, ℕ, ◌+◌, ◌<◌, ◌==◌, ◌&&◌, length, replicate, slice_index_or, None};
ghost use Rattle.spirv_model.specs.Operands.{word_at};
ghost use Rattle.spirv_model.specs.declared.op.TheConstants.{VARIABLE};
ghost use Rattle.spirv_model.specs.declared.storage_class.TheConstants.{OUTPUT};
ghost use Rattle.spirv_model.specs.declared.builtin.TheConstants.{POSITION};
ghost use Rattle.stage_model.specs.Stage.{is_number};
ghost use Rattle.spv_exec.specs.Outputs.{AreOutputs, component_at, components_at, first_or, slots_at};

use crate::module_frame::ModuleFrame;
use crate::origins::{built_in, location};
use limits::{COMPONENTS, LOCATIONS};
use spirv_model::{Inst, builtin, op, storage_class};

/// Where the words of an output variable begin in the memory, and how many they are.
#[derive(Clone, Copy, Debug, Drop)]
pub struct Output {
    pub start: usize,
    pub count: usize,
}

/// The output that is Position, and those by location, where they are there.
#[derive(Clone, Copy, Debug, Drop)]
pub struct Outputs {
    pub position: Option<Output>,
    pub slots: [Option<Output>; LOCATIONS],
}

/// The outputs of a module.
pub fn outputs_of(of: &ModuleFrame<'_>) -> Outputs
    ensures { AreOutputs of.now.insts (length of.now.insts) result }
{
    let mut outputs = Outputs {
        position: None,
        slots: [None; LOCATIONS],
    };
    for place in 0..of.count() {
        outputs = with_output(of, place, outputs);
    }
    outputs
}

/// Whether the instruction makes an output variable.
fn is_output(inst: &Inst) -> bool
    ensures { result ≡ ((inst.now.op == VARIABLE) && (word_at 2 inst.now == OUTPUT)) }
{
    inst.op == op::VARIABLE && inst.word(2) == storage_class::OUTPUT
}

/// The outputs with that of the instruction at this place, where it makes one.
fn with_output(of: &ModuleFrame<'_>, place: usize, outputs: Outputs) -> Outputs
    requires within { place < length of.now.insts }
    requires before { AreOutputs of.now.insts place outputs }
    ensures { AreOutputs of.now.insts (place + 1) result }
{
    let inst = of.inst(place);
    if !is_output(inst) {
        return outputs;
    }
    let output = Output {
        start: of.memory_place(place),
        count: of.memory_words(place),
    };
    let Outputs { position, slots } = outputs;
    Outputs {
        position: with_position(built_in(of, inst.word(1)), position, output),
        slots: with_slot(location(of, inst.word(1)), slots, output),
    }
}

/// The first output with the built-in Position.
fn with_position(number: Option<u32>, position: Option<Output>, output: Output) -> Option<Output>
    ensures { result ≡ first_or position (is_number POSITION number) output }
{
    if position.is_some() {
        return position;
    }
    match number {
        Some(builtin::POSITION) => Some(output),
        _ => None,
    }
}

/// The first outputs at each location.
fn with_slot(
    location: Option<u32>,
    slots: [Option<Output>; LOCATIONS],
    output: Output,
) -> [Option<Output>; LOCATIONS]
    ensures length { length result ≡ LOCATIONS }
    ensures first { (k : ℕ) → k < LOCATIONS → slice_index_or result k None
        ≡ first_or (slice_index_or slots k None) (is_number k location) output }
{
    let mut slots = slots;
    let Some(location) = location else {
        return slots;
    };
    let at = location as usize;
    if at < LOCATIONS && slots[at].is_none() {
        slots[at] = Some(output);
    }
    slots
}

/// Puts the four components of what an output holds in the place of zeros; zeros stay where its type lacks them, and where there
/// is none.
fn put_components(memory: &[u32], output: Option<Output>, to: &mut [u32; COMPONENTS])
    requires { to.old ≡ replicate COMPONENTS 0 }
    ensures { to.new ≡ components_at memory.now output }
{
    let Some(output) = output else {
        return;
    };
    for k in 0..COMPONENTS {
        to[k] = component(memory, output, k);
    }
}

/// Puts the components of what the output that is Position holds in the place of zeros.
pub fn put_position(memory: &[u32], outputs: &Outputs, to: &mut [u32; COMPONENTS])
    requires { to.old ≡ replicate COMPONENTS 0 }
    ensures { to.new ≡ components_at memory.now outputs.now.position }
{
    put_components(memory, outputs.position, to);
}

/// Puts the components of what the outputs at each location hold in the place of zeros.
pub fn put_slots(memory: &[u32], outputs: &Outputs, to: &mut [[u32; COMPONENTS]; LOCATIONS])
    requires { to.old ≡ replicate LOCATIONS (replicate COMPONENTS 0) }
    ensures { to.new ≡ slots_at memory.now outputs.now.slots }
{
    for location in 0..LOCATIONS {
        put_components(memory, outputs.slots[location], &mut to[location]);
    }
}

fn component(memory: &[u32], output: Output, k: usize) -> u32
    requires { k < COMPONENTS }
    ensures { result ≡ component_at memory.now output k }
{
    if k >= output.count || output.start >= memory.len() {
        return 0;
    }
    memory.get(output.start + k).copied().unwrap_or(0)
}
