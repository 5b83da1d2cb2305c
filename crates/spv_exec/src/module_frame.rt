ghost use Rattle.std.specs.Prelude.{◌≡◌, ◌<◌, ◌≤◌, ◌^◌, ◌*◌, length, ℕ, Some, IfOk};
ghost use Rattle.spirv_model.specs.declared.module.Words.{Words};
ghost use Rattle.check_model.specs.Validity.{IsValidList};
ghost use Rattle.valid_model.specs.declared.meaning.Meaning.TheVariants.{Shape as OfShape};
ghost use Rattle.valid_model.specs.Definitions.{definition, inst_at};
ghost use Rattle.valid_model.specs.Meanings.{meaning};
ghost use Rattle.stage_model.specs.Program.{layouts_of, program_of};
ghost use Rattle.stage_model.specs.Stage.{size_in};
ghost use Rattle.stage_model.specs.Value.{Layout, Layouts, Several, repeated};
ghost use Rattle.frame_model.specs.Frame.{frame_place, frame_words, memory_place, variable_words};
ghost use Rattle.spv_exec.specs.ModuleFrames.{AnswersPart, IsModuleFrame, IsStructOf, component_part};

use crate::member_starts::MemberStarts;
use crate::places::{frame_places, layout_words, memory_places};
use spirv_model::Inst;
use spv_check::Module;
use std::alloc::{AllocError, Global};
use std::marker::Model;
use valid_model::{Meaning, Shape};

/// A valid module, and where the values of its ids lie in one frame of words, and its variables in one memory. It is seen as
/// the module's instructions and bound.
#[derive(Drop)]
pub struct ModuleFrame<'m> {
    module: &'m Module,
    frame: Vec<u32>,
    memory: Vec<u32>,
    members: MemberStarts,
}

/// A part of a composite: where it begins, in words, and the id of its type; 0 for a vector's component.
#[derive(Clone, Copy, Debug, Drop, PartialEq, Eq)]
pub struct Part {
    pub start: u32,
    pub ty: u32,
}

impl<'m> Model for ModuleFrame<'m> {
    ghost Value = { Words };

    ghost view = { λ m. m.module.now };

    ghost invariant = { λ m. IsModuleFrame m.module.now m.frame.items m.memory.items
        m.members.firsts.items m.members.starts.items };
}

impl<'m> ModuleFrame<'m> {
    /// That of a module.
    pub fn new(alloc: Global, of: &'m Module) -> Result<ModuleFrame<'m>, AllocError>
        ensures { IfOk result (λ frame. frame ≡ of.now) }
    {
        let frame = frame_places(alloc, of)?;
        let memory = memory_places(alloc, of)?;
        let members = MemberStarts::new(alloc, of)?;
        Ok(ModuleFrame {
            module: of,
            frame,
            memory,
            members,
        })
    }

    /// The module.
    pub fn module(&self) -> &'m Module
        ensures is { result.now ≡ self.now }
        ensures valid { IsValidList self.now }
        ensures few { length self.now.insts < 2 ^ 32 }
    {
        self.module
    }

    /// How many instructions it has.
    pub fn count(&self) -> usize
        ensures { result ≡ length self.now.insts }
    {
        self.module.insts().len()
    }

    /// The instruction at a place.
    pub fn inst(&self, place: usize) -> &'m Inst
        requires { place < length self.now.insts }
        ensures { result.now ≡ inst_at self.now.insts place }
    {
        &self.module.insts()[place]
    }

    /// Where the result of the instruction at a place begins in the frame; at the module's end, the frame's length.
    pub fn frame_place(&self, place: usize) -> usize
        requires { place ≤ length self.now.insts }
        ensures { result ≡ frame_place (program_of self.now.insts) place }
    {
        self.frame[place] as usize
    }

    /// The words of the result of the instruction at a place.
    #[tactic(auto, using(crate::proofs::PlacesTo::frame_step))]
    pub fn frame_words(&self, place: usize) -> usize
        requires { place < length self.now.insts }
        ensures { result ≡ frame_words (program_of self.now.insts) (inst_at self.now.insts place) }
    {
        (self.frame[place + 1] - self.frame[place]) as usize
    }

    /// Where the variable that the instruction at a place makes begins in the memory; at the module's end, the memory's length.
    pub fn memory_place(&self, place: usize) -> usize
        requires { place ≤ length self.now.insts }
        ensures { result ≡ memory_place (program_of self.now.insts) place }
    {
        self.memory[place] as usize
    }

    /// The words of the variable that the instruction at a place makes; none where it makes none.
    #[tactic(auto, using(crate::proofs::PlacesTo::memory_step))]
    pub fn memory_words(&self, place: usize) -> usize
        requires { place < length self.now.insts }
        ensures { result
            ≡ variable_words (program_of self.now.insts) (inst_at self.now.insts place) }
    {
        (self.memory[place + 1] - self.memory[place]) as usize
    }

    /// The place of an id's definition.
    pub fn definition(&self, id: u32) -> Option<u32>
        ensures { result ≡ definition self.now.insts id }
    {
        self.module.ids().place(id)
    }

    /// Where the value of an id begins in the frame; 0 without a definition.
    #[tactic(auto, using(typed_model::proofs::ValidTypes::defined_within))]
    pub fn operand(&self, id: u32) -> usize
        ensures { (place : ℕ) → definition self.now.insts id ≡ Some place
            → result ≡ frame_place (program_of self.now.insts) place }
    {
        match self.definition(id) {
            Some(place) => self.frame_place(place as usize),
            None => 0,
        }
    }

    /// What an id means.
    pub fn meaning(&self, id: u32) -> &Meaning
        ensures { result.now ≡ meaning self.now.insts id }
    {
        self.module.ids().at(id)
    }

    /// The words of a value of the type with this id; none where it is no type of data.
    pub fn type_words(&self, id: u32) -> u32
        ensures { result ≡ size_in ((program_of self.now.insts).layout id) }
    {
        layout_words(self.module, id)
    }

    /// The part of a type of data with an index: an element, a member or a component; none where it has no such part.
    pub fn part(&self, ty: u32, index: u32) -> Option<Part>
        ensures { (layout : Layout) → (program_of self.now.insts).layout ty ≡ Some layout
            → AnswersPart (program_of self.now.insts) layout index result }
    {
        match self.module.ids().at(ty) {
            Meaning::Shape(shape) => self.part_of(ty, shape, index),
            _ => None,
        }
    }

    /// The part with an index of the type of this shape.
    fn part_of(&self, ty: u32, shape: &Shape, index: u32) -> Option<Part>
        requires valid { IsValidList self.now }
        requires shaped { meaning self.now.insts ty ≡ OfShape shape.now }
        ensures { (layout : Layout) → (program_of self.now.insts).layout ty ≡ Some layout
            → AnswersPart (program_of self.now.insts) layout index result }
    {
        match shape {
            Shape::BoolVector { comps } => component(*comps, index),
            Shape::IntVector { comps, .. } => component(*comps, index),
            Shape::Array { elem, len } => self.element(*elem, *len, index),
            Shape::Struct { members } => self.member(ty, members.list.as_slice(), index),
            Shape::Void
            | Shape::Bool
            | Shape::Int { .. }
            | Shape::Pointer { .. }
            | Shape::Function => None,
        }
    }

    /// The element of an array with an index.
    fn element(&self, elem: u32, len: u32, index: u32) -> Option<Part>
        requires { len * size_in ((program_of self.now.insts).layout elem) < 2 ^ 32 }
        ensures { (of : Layout) → (program_of self.now.insts).layout elem ≡ Some of
            → AnswersPart (program_of self.now.insts) (Several (repeated len of)) index result }
    {
        if index >= len {
            return None;
        }
        Some(Part {
            start: index * self.type_words(elem),
            ty: elem,
        })
    }

    /// The member of a structure with an index.
    fn member(&self, ty: u32, members: &[u32], index: u32) -> Option<Part>
        requires { IsStructOf self.now ty members.now }
        ensures { (layouts : Layouts)
            → layouts_of (program_of self.now.insts).layout members.now ≡ Some layouts
            → AnswersPart (program_of self.now.insts) (Several layouts) index result }
    {
        let at = index as usize;
        if at >= members.len() {
            return None;
        }
        match self.definition(ty) {
            Some(place) => Some(Part {
                start: self.members.start(place as usize, at),
                ty: members[at],
            }),
            None => None,
        }
    }
}

/// The component of a vector with an index.
fn component(comps: u8, index: u32) -> Option<Part>
    ensures { result ≡ component_part comps index }
{
    if index >= u32::from(comps) {
        return None;
    }
    Some(Part {
        start: index,
        ty: 0,
    })
}
