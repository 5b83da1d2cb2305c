ghost use Rattle.std.specs.Prelude.{◌≡◌, ◌==◌, ◌<◌, ◌≤◌, ◌+◌, ◌^◌, [], ◌∷◌, true, ℕ, List, length, replicate, slice_index, Some};
ghost use Rattle.spirv_model.specs.declared.op.TheConstants as op;
ghost use Rattle.valid_model.specs.Definitions.{definition, inst_at};
ghost use Rattle.stage_model.specs.Value.{Value};
ghost use Rattle.stage_model.specs.Start.{Memory};
ghost use Rattle.stage_model.specs.Program.{program_of};
ghost use Rattle.stage_model.specs.Effect.{Effect};
ghost use Rattle.frame_model.specs.Frame.{frame_place, in_frame};
ghost use Rattle.frame_model.specs.Shown.{ShowsMemory};
ghost use Rattle.frame_model.specs.Written.{GivesAt, GivesSome, written};
ghost use Rattle.valid_model.specs.Meanings.{meaning};
ghost use Rattle.valid_model.specs.declared.meaning.Meaning.TheVariants.{Variable, Shape as OfShape};
ghost use Rattle.valid_model.specs.declared.meaning.Shape.TheVariants.{Pointer};
ghost use Rattle.spv_exec.specs.Chains.{ComesTo};
ghost use Rattle.spv_exec.specs.Accesses.{LoadsSome, StoresAt, StoresSome, memory_after};

use crate::copies::copy_words;
use crate::module_frame::ModuleFrame;
use valid_model::{Meaning, Shape};

/// The word that stands for a pointer outside of its variable.
const OUTSIDE: u32 = 0xffff_ffff;

/// The first word of an operand's value.
pub fn word_of(of: &ModuleFrame<'_>, frame: &[u32], id: u32) -> u32
    ensures { (place : ℕ) → definition of.now.insts id ≡ Some place
        → result ≡ slice_index frame.now (frame_place (program_of of.now.insts) place) }
{
    frame.get(of.operand(id)).copied().unwrap_or(0)
}

/// Writes a word to a place.
pub fn put(frame: &mut [u32], place: usize, word: u32)
    ensures { place < length frame.old → frame.new ≡ written frame.old place (word ∷ []) }
{
    if place < frame.len() {
        frame[place] = word;
    }
}

/// Writes so many zeros from a place on.
pub fn clear_words(frame: &mut [u32], place: usize, count: usize)
    ensures { place + count ≤ length frame.old
        → frame.new ≡ written frame.old place (replicate count 0) }
{
    if place > frame.len() || count > frame.len() - place {
        return;
    }
    frame[place..place + count].fill(0);
}

/// OpVariable of the function: a pointer to the whole of it.
pub fn run_variable(of: &ModuleFrame<'_>, place: usize, frame: &mut [u32])
    requires gives { GivesSome (program_of of.now.insts) frame.old place }
    requires is { (inst_at of.now.insts place).op == op.VARIABLE ≡ true }
    ensures { (held : Memory) (value : Value)
        → GivesAt (program_of of.now.insts) frame.old held place value
        → frame.new ≡ written frame.old (frame_place (program_of of.now.insts) place) (in_frame (program_of of.now.insts) value) }
{
    let _module = of.module();
    put(frame, of.frame_place(place), of.memory_place(place) as u32);
}

/// The id of the type of what a variable holds; 0 for anything else.
fn held_type(of: &ModuleFrame<'_>, variable: u32) -> u32
    ensures { (held class to : ℕ) → meaning of.now.insts variable ≡ Variable held class
        → meaning of.now.insts held ≡ OfShape (Pointer class to) → result ≡ to }
{
    let Meaning::Variable { ty, .. } = of.meaning(variable) else {
        return 0;
    };
    let Meaning::Shape(Shape::Pointer { to, .. }) = of.meaning(*ty) else {
        return 0;
    };
    *to
}

/// The word of a pointer along ids of indices, from where a value of the type with this id begins in the memory.
fn along(of: &ModuleFrame<'_>, frame: &[u32], begin: u32, ty: u32, ids: &[u32]) -> u32
    ensures { ComesTo (program_of of.now.insts) frame.now begin ty ids.now result }
{
    let mut at = begin;
    let mut held = ty;
    for id in ids {
        let Some(part) = of.part(held, word_of(of, frame, *id)) else {
            return OUTSIDE;
        };
        at = at.wrapping_add(part.start);
        held = part.ty;
    }
    at
}

/// OpAccessChain.
pub fn run_chain(of: &ModuleFrame<'_>, place: usize, frame: &mut [u32])
    requires gives { GivesSome (program_of of.now.insts) frame.old place }
    requires is { (inst_at of.now.insts place).op == op.ACCESS_CHAIN ≡ true }
    ensures { (held : Memory) (value : Value)
        → GivesAt (program_of of.now.insts) frame.old held place value
        → frame.new ≡ written frame.old (frame_place (program_of of.now.insts) place) (in_frame (program_of of.now.insts) value) }
{
    let _module = of.module();
    let inst = of.inst(place);
    let base = inst.word(2);
    let pointer = word_of(of, frame, base);
    let to = of.frame_place(place);
    if pointer == OUTSIDE {
        put(frame, to, OUTSIDE);
        return;
    }
    let word = along(of, frame, pointer, held_type(of, base), inst.words_from(3));
    put(frame, to, word);
}

/// OpLoad.
pub fn run_load(of: &ModuleFrame<'_>, place: usize, frame: &mut [u32], memory: &[u32])
    requires gives { LoadsSome (program_of of.now.insts) frame.old memory.now place }
    requires is { (inst_at of.now.insts place).op == op.LOAD ≡ true }
    ensures { (held : Memory) (value : Value)
        → ShowsMemory (program_of of.now.insts) memory.now held
        → GivesAt (program_of of.now.insts) frame.old held place value
        → frame.new ≡ written frame.old (frame_place (program_of of.now.insts) place) (in_frame (program_of of.now.insts) value) }
{
    let _module = of.module();
    let pointer = word_of(of, frame, of.inst(place).word(2));
    let to = of.frame_place(place);
    let count = of.frame_words(place);
    if pointer == OUTSIDE {
        clear_words(frame, to, count);
        return;
    }
    copy_words(memory, pointer as usize, count, frame, to);
}

/// OpStore.
pub fn run_store(of: &ModuleFrame<'_>, place: usize, frame: &[u32], memory: &mut [u32])
    requires stores { StoresSome (program_of of.now.insts) frame.now memory.old place }
    ensures { (held : Memory) (effect : Effect)
        → StoresAt (program_of of.now.insts) frame.now memory.old held place effect
        → ShowsMemory (program_of of.now.insts) memory.new (memory_after held effect) }
{
    let _module = of.module();
    let inst = of.inst(place);
    let pointer = word_of(of, frame, inst.word(0));
    if pointer == OUTSIDE {
        return;
    }
    let Some(object) = of.definition(inst.word(1)) else {
        return;
    };
    let at = of.frame_place(object as usize);
    let count = of.frame_words(object as usize);
    copy_words(frame, at, count, memory, pointer as usize);
}
