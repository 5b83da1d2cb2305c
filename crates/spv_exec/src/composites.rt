ghost use Rattle.std.specs.Prelude.{◌≡◌, ◌==◌, ◌<◌, ◌≤◌, ◌+◌, ◌^◌, true, ℕ, length, map, replicate, slice_index, None, Some};
ghost use Rattle.std.specs.List.{flat_map};
ghost use Rattle.valid_model.specs.Definitions.{definition, inst_at};
ghost use Rattle.valid_model.specs.Meanings.{meaning};
ghost use Rattle.check_model.specs.Typing.{type_id};
ghost use Rattle.stage_model.specs.Value.{Value, Layout, part_along};
ghost use Rattle.stage_model.specs.Start.{Memory};
ghost use Rattle.stage_model.specs.Program.{program_of};
ghost use Rattle.frame_model.specs.Frame.{frame_place, frame_words, in_frame};
ghost use Rattle.frame_model.specs.Written.{GivesAt, GivesSome, written};
ghost use Rattle.frame_model.specs.ShownWords.{IsShown, shown_of};
ghost use Rattle.spirv_model.specs.declared.op.TheConstants as op;
ghost use Rattle.spv_exec.specs.Composites.{picked_of};

use crate::copies::copy_words;
use crate::module_frame::ModuleFrame;
use valid_model::Meaning;

/// OpUndef: zeros.
pub fn run_undef(of: &ModuleFrame<'_>, place: usize, frame: &mut [u32])
    requires gives { GivesSome (program_of of.now.insts) frame.old place }
    requires is { (inst_at of.now.insts place).op == op.UNDEF ≡ true }
    ensures { (held : Memory) (value : Value)
        → GivesAt (program_of of.now.insts) frame.old held place value
        → frame.new ≡ written frame.old (frame_place (program_of of.now.insts) place) (in_frame (program_of of.now.insts) value) }
{
    let _module = of.module();
    let count = of.frame_words(place);
    let (_, to) = frame.split_at_mut(of.frame_place(place));
    clear_words(count, to);
}

/// OpVectorShuffle.
pub fn run_shuffle(of: &ModuleFrame<'_>, place: usize, frame: &mut [u32])
    requires gives { GivesSome (program_of of.now.insts) frame.old place }
    requires is { (inst_at of.now.insts place).op == op.VECTOR_SHUFFLE ≡ true }
    ensures { (held : Memory) (value : Value)
        → GivesAt (program_of of.now.insts) frame.old held place value
        → frame.new ≡ written frame.old (frame_place (program_of of.now.insts) place) (in_frame (program_of of.now.insts) value) }
{
    let _module = of.module();
    let inst = of.inst(place);
    let (first, second) = (inst.word(2), inst.word(3));
    let vectors = Vectors {
        first: of.operand(first),
        count: operand_words(of, first),
        second: of.operand(second),
    };
    let (front, to) = frame.split_at_mut(of.frame_place(place));
    pick_words(front, vectors, inst.words_from(4), to);
}

/// OpCompositeConstruct.
pub fn run_construct(of: &ModuleFrame<'_>, place: usize, frame: &mut [u32])
    requires gives { GivesSome (program_of of.now.insts) frame.old place }
    requires is { (inst_at of.now.insts place).op == op.COMPOSITE_CONSTRUCT ≡ true }
    ensures { (held : Memory) (value : Value)
        → GivesAt (program_of of.now.insts) frame.old held place value
        → frame.new ≡ written frame.old (frame_place (program_of of.now.insts) place) (in_frame (program_of of.now.insts) value) }
{
    let _module = of.module();
    let (front, to) = frame.split_at_mut(of.frame_place(place));
    gather_words(of, front, of.inst(place).words_from(2), to);
}

/// OpCompositeExtract.
pub fn run_extract(of: &ModuleFrame<'_>, place: usize, frame: &mut [u32])
    requires gives { GivesSome (program_of of.now.insts) frame.old place }
    requires is { (inst_at of.now.insts place).op == op.COMPOSITE_EXTRACT ≡ true }
    ensures { (held : Memory) (value : Value)
        → GivesAt (program_of of.now.insts) frame.old held place value
        → frame.new ≡ written frame.old (frame_place (program_of of.now.insts) place) (in_frame (program_of of.now.insts) value) }
{
    let _module = of.module();
    let inst = of.inst(place);
    let whole = inst.word(2);
    let at = of.frame_place(place);
    let start = part_start(of, type_of(of, whole), inst.words_from(3));
    let from = of.operand(whole) + start;
    let (front, to) = frame.split_at_mut(at);
    copy_words(front, from, of.frame_words(place), to, 0);
}

/// OpCompositeInsert.
pub fn run_insert(of: &ModuleFrame<'_>, place: usize, frame: &mut [u32])
    requires gives { GivesSome (program_of of.now.insts) frame.old place }
    requires is { (inst_at of.now.insts place).op == op.COMPOSITE_INSERT ≡ true }
    ensures { (held : Memory) (value : Value)
        → GivesAt (program_of of.now.insts) frame.old held place value
        → frame.new ≡ written frame.old (frame_place (program_of of.now.insts) place) (in_frame (program_of of.now.insts) value) }
{
    let _module = of.module();
    let inst = of.inst(place);
    let (object, whole) = (inst.word(2), inst.word(3));
    let at = of.frame_place(place);
    let start = part_start(of, type_of(of, whole), inst.words_from(4));
    let (front, to) = frame.split_at_mut(at);
    copy_words(front, of.operand(whole), operand_words(of, whole), to, 0);
    let count = operand_words(of, object);
    copy_words(front, of.operand(object), count, to, start);
}

/// Two vectors: where their words begin, and how many the first has.
#[derive(Clone, Copy, Debug, Drop, PartialEq, Eq)]
struct Vectors {
    first: usize,
    count: usize,
    second: usize,
}

/// The words of an id's value; none without a definition.
fn operand_words(of: &ModuleFrame<'_>, id: u32) -> usize
    ensures there { (place : ℕ) → definition of.now.insts id ≡ Some place
        → result ≡ frame_words (program_of of.now.insts) (inst_at of.now.insts place) }
    ensures none { definition of.now.insts id ≡ None → result ≡ 0 }
{
    match of.definition(id) {
        Some(place) => of.frame_words(place as usize),
        None => 0,
    }
}

/// The id of the type of an id; 0 without one.
fn type_of(of: &ModuleFrame<'_>, id: u32) -> u32
    ensures { (ty : ℕ) → type_id (meaning of.now.insts id) ≡ Some ty → result ≡ ty }
{
    match of.meaning(id) {
        Meaning::Constant { ty } | Meaning::Variable { ty, .. } | Meaning::Value { ty } => *ty,
        _ => 0,
    }
}

/// Where the part begins, in words, to which literals lead in a value of a type.
fn part_start(of: &ModuleFrame<'_>, ty: u32, literals: &[u32]) -> usize
    ensures { (layout part : Layout) (start : ℕ)
        → (program_of of.now.insts).layout ty ≡ Some layout → start < 2 ^ 64
        → part_along layout literals.now ≡ Some (start, part) → result ≡ start }
{
    let mut start: usize = 0;
    let mut whole = ty;
    for literal in literals {
        let Some(part) = of.part(whole, *literal) else {
            return 0;
        };
        start = start.wrapping_add(part.start as usize);
        whole = part.ty;
    }
    start
}

/// Writes so many zeros.
fn clear_words(count: usize, to: &mut [u32])
    requires { count ≤ length to.old }
    ensures { to.new ≡ written to.old 0 (replicate count 0) }
{
    for k in 0..count {
        to[k] = 0;
    }
}

/// Writes the words of the values of ids one after another.
pub fn gather_words(of: &ModuleFrame<'_>, front: &[u32], ids: &[u32], to: &mut [u32])
    requires fits { length (flat_map (shown_of of.now.insts front.now) ids.now) ≤ length to.old }
    requires there { (k : ℕ) → k < length ids.now
        → IsShown of.now.insts front.now (slice_index ids.now k) }
    ensures { to.new ≡ written to.old 0 (flat_map (shown_of of.now.insts front.now) ids.now) }
{
    let mut at = 0;
    for id in ids {
        let count = operand_words(of, *id);
        copy_words(front, of.operand(*id), count, to, at);
        at += count;
    }
}

/// Writes the words that literals pick of two vectors.
fn pick_words(front: &[u32], vectors: Vectors, literals: &[u32], to: &mut [u32])
    requires { length literals.now ≤ length to.old }
    ensures { to.new ≡ written to.old 0 (map (picked_of front.now vectors) literals.now) }
{
    for k in 0..literals.len() {
        to[k] = pick_word(front, vectors, literals[k]);
    }
}

/// The word that a literal picks of two vectors: 0 for ffffffff.
fn pick_word(front: &[u32], vectors: Vectors, literal: u32) -> u32
    ensures { result ≡ picked_of front.now vectors literal }
{
    let at = literal as usize;
    if literal == u32::MAX {
        0
    } else if at < vectors.count {
        word_behind(front, vectors.first, at)
    } else {
        word_behind(front, vectors.second, at - vectors.count)
    }
}

/// A word so many behind a place; 0 past the end.
fn word_behind(words: &[u32], place: usize, more: usize) -> u32
    ensures { result ≡ slice_index words.now (place + more) }
{
    match place.checked_add(more) {
        Some(at) => words.get(at).copied().unwrap_or(0),
        None => 0,
    }
}
