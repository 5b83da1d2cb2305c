//! Where the results of a module's instructions lie in one frame of words, and its variables in one memory.
ghost use Rattle.std.specs.Prelude.{◌≡◌, ◌<◌, ◌≤◌, ◌^◌, length, IfOk};
ghost use Rattle.limits.specs.declared.TheConstants.{TYPE_WORDS};
ghost use Rattle.check_model.specs.Typing.{type_id};
ghost use Rattle.check_model.specs.Validity.{IsValidList};
ghost use Rattle.valid_model.specs.Meanings.{meaning};
ghost use Rattle.stage_model.specs.Program.{held_layout, program_of};
ghost use Rattle.stage_model.specs.Stage.{size_in};
ghost use Rattle.frame_model.specs.Frame.{frame_words, type_words, variable_words};
ghost use Rattle.spv_exec.specs.ModuleFrames.{AreFramePlaces, AreMemoryPlaces};

use spirv_model::{Inst, op};
use spv_check::Module;
use spv_words::result;
use std::alloc::{AllocError, Global};
use valid_model::{Meaning, Shape};

/// Where each result begins in the frame, and the frame's length at the end.
pub fn frame_places(alloc: Global, of: &Module) -> Result<Vec<u32>, AllocError>
    ensures are { IfOk result (λ places. AreFramePlaces of.now.insts places.items) }
    ensures valid { IsValidList of.now }
    ensures few { length of.now.insts < 2 ^ 32 }
{
    let insts = of.insts();
    let mut places = Vec::with_capacity(alloc, insts.len() + 1)?;
    let mut next = 0;
    places.push(next)?;
    for inst in insts {
        next += frame_words(of, inst);
        places.push(next)?;
    }
    Ok(places)
}

/// Where each variable begins in the memory, and the memory's length at the end.
pub fn memory_places(alloc: Global, of: &Module) -> Result<Vec<u32>, AllocError>
    ensures { IfOk result (λ places. AreMemoryPlaces of.now.insts places.items) }
{
    let insts = of.insts();
    let mut places = Vec::with_capacity(alloc, insts.len() + 1)?;
    let mut next = 0;
    places.push(next)?;
    for inst in insts {
        next += variable_words(of, inst);
        places.push(next)?;
    }
    Ok(places)
}

#[tactic(auto, unfolding(frame_model::specs::Frame::frame_words, stage_model::specs::Program::program_of))]
fn frame_words(of: &Module, inst: &Inst) -> u32
    ensures { result ≡ frame_words (program_of of.now.insts) inst.now }
{
    let Some(id) = result(inst) else {
        return 0;
    };
    match type_of(of, id) {
        Some(ty) => type_words(of, ty),
        None => 0,
    }
}

/// The id of an id's type.
fn type_of(of: &Module, id: u32) -> Option<u32>
    ensures { result ≡ type_id (meaning of.now.insts id) }
{
    match of.ids().at(id) {
        Meaning::Constant { ty } | Meaning::Value { ty } => Some(*ty),
        Meaning::Variable { ty, .. } => Some(*ty),
        _ => None,
    }
}

fn type_words(of: &Module, ty: u32) -> u32
    ensures { result ≡ type_words (program_of of.now.insts) ty (meaning of.now.insts ty) }
{
    match of.ids().at(ty) {
        Meaning::Shape(Shape::Pointer { .. }) => 1,
        _ => layout_words(of, ty),
    }
}

/// The words of a value of a type of data; none of any other type.
pub fn layout_words(of: &Module, ty: u32) -> u32
    ensures is { result ≡ size_in ((program_of of.now.insts).layout ty) }
    ensures few { result ≤ TYPE_WORDS }
{
    of.ids().size(ty)
}

#[tactic(auto, unfolding(frame_model::specs::Frame::variable_words))]
fn variable_words(of: &Module, inst: &Inst) -> u32
    ensures { result ≡ variable_words (program_of of.now.insts) inst.now }
{
    if inst.op != op::VARIABLE {
        return 0;
    }
    match result(inst) {
        Some(id) => held_words(of, id),
        None => 0,
    }
}

/// The words of what a variable holds.
#[tactic(auto, unfolding(stage_model::specs::Program::held_layout, stage_model::specs::Program::program_of))]
fn held_words(of: &Module, id: u32) -> u32
    ensures { result ≡ size_in (held_layout (program_of of.now.insts) id) }
{
    let Meaning::Variable { ty, .. } = of.ids().at(id) else {
        return 0;
    };
    match of.ids().at(*ty) {
        Meaning::Shape(Shape::Pointer { to, .. }) => layout_words(of, *to),
        _ => 0,
    }
}
