ghost use Rattle.std.specs.Prelude.{◌≡◌, ◌==◌, true, List, ℕ, drop, ◌∷◌, [], Some};
ghost use Rattle.valid_model.specs.Definitions.{definition, inst_at};
ghost use Rattle.stage_model.specs.Value.{Value, words_of};
ghost use Rattle.stage_model.specs.Start.{Memory, scalar_value};
ghost use Rattle.stage_model.specs.Program.{program_of};
ghost use Rattle.frame_model.specs.Frame.{frame_place, frame_words, in_frame};
ghost use Rattle.frame_model.specs.Written.{GivesAt, GivesSome, written};
ghost use Rattle.spv_exec.specs.Opcodes.{is_on_components};
ghost use Rattle.spv_exec.specs.ScalarWords.{AreWords};

use crate::components::{
    write_all, write_any, write_binary, write_chosen, write_unary, write_whole,
};
use crate::module_frame::ModuleFrame;
use spirv_model::op;
use spv_ops::result_word;

/// The word of the result of a scalar operation, by the words of its operands. A truth value is the word 1 or 0.
pub fn scalar_word(opcode: u32, words: &[u32]) -> u32
    ensures { (read : List Value) (value : Value) → scalar_value opcode read ≡ Some value
        → AreWords read words.now → words_of value ≡ Some (result ∷ []) }
{
    match u16::try_from(opcode) {
        Ok(op) => result_word(op, words),
        Err(_) => 0,
    }
}

/// Runs an operation on the components of its operands (SPIR-V specification, sections 3.49.13 to 3.49.15).
pub fn run_operation(of: &ModuleFrame<'_>, place: usize, frame: &mut [u32])
    requires gives { GivesSome (program_of of.now.insts) frame.old place }
    requires is { is_on_components (inst_at of.now.insts place).op ≡ true }
    ensures { (held : Memory) (value : Value)
        → GivesAt (program_of of.now.insts) frame.old held place value
        → frame.new ≡ written frame.old (frame_place (program_of of.now.insts) place)
        (in_frame (program_of of.now.insts) value) }
{
    let _module = of.module();
    run_on(of, place, of.inst(place).words_from(2), frame);
}

fn run_on(of: &ModuleFrame<'_>, place: usize, reads: &[u32], frame: &mut [u32])
    requires gives { GivesSome (program_of of.now.insts) frame.old place }
    requires is { is_on_components (inst_at of.now.insts place).op ≡ true }
    requires reads { reads.now ≡ drop 2 (inst_at of.now.insts place).words }
    ensures { (held : Memory) (value : Value)
        → GivesAt (program_of of.now.insts) frame.old held place value
        → frame.new ≡ written frame.old (frame_place (program_of of.now.insts) place)
        (in_frame (program_of of.now.insts) value) }
{
    let _module = of.module();
    let many = reads.len();
    if many == 1 {
        run_unary(of, place, reads[0], frame);
    } else if many == 2 {
        run_binary(of, place, reads[0], reads[1], frame);
    } else {
        run_select(of, place, reads[0], reads[1], reads[2], frame);
    }
}

fn run_unary(of: &ModuleFrame<'_>, place: usize, operand: u32, frame: &mut [u32])
    requires gives { GivesSome (program_of of.now.insts) frame.old place }
    requires is { is_on_components (inst_at of.now.insts place).op ≡ true }
    requires reads { drop 2 (inst_at of.now.insts place).words ≡ operand ∷ [] }
    ensures { (held : Memory) (value : Value)
        → GivesAt (program_of of.now.insts) frame.old held place value
        → frame.new ≡ written frame.old (frame_place (program_of of.now.insts) place)
        (in_frame (program_of of.now.insts) value) }
{
    let _module = of.module();
    let op = of.inst(place).op;
    let at = of.frame_place(place);
    if op == op::ANY {
        let (from, count) = span(of, operand);
        write_any(from, count, at, frame);
    } else if op == op::ALL {
        let (from, count) = span(of, operand);
        write_all(from, count, at, frame);
    } else {
        write_unary(op, of.operand(operand), at, of.frame_words(place), frame);
    }
}

fn run_binary(of: &ModuleFrame<'_>, place: usize, left: u32, right: u32, frame: &mut [u32])
    requires gives { GivesSome (program_of of.now.insts) frame.old place }
    requires is { is_on_components (inst_at of.now.insts place).op ≡ true }
    requires reads { drop 2 (inst_at of.now.insts place).words ≡ left ∷ right ∷ [] }
    ensures { (held : Memory) (value : Value)
        → GivesAt (program_of of.now.insts) frame.old held place value
        → frame.new ≡ written frame.old (frame_place (program_of of.now.insts) place)
        (in_frame (program_of of.now.insts) value) }
{
    let _module = of.module();
    write_binary(
        of.inst(place).op,
        of.operand(left),
        of.operand(right),
        of.frame_place(place),
        of.frame_words(place),
        frame,
    )
}

fn run_select(
    of: &ModuleFrame<'_>,
    place: usize,
    condition: u32,
    first: u32,
    second: u32,
    frame: &mut [u32],
)
    requires gives { GivesSome (program_of of.now.insts) frame.old place }
    requires is { is_on_components (inst_at of.now.insts place).op ≡ true }
    requires reads { drop 2 (inst_at of.now.insts place).words ≡ condition ∷ first ∷ second ∷ [] }
    ensures { (held : Memory) (value : Value)
        → GivesAt (program_of of.now.insts) frame.old held place value
        → frame.new ≡ written frame.old (frame_place (program_of of.now.insts) place)
        (in_frame (program_of of.now.insts) value) }
{
    let _module = of.module();
    let at = of.frame_place(place);
    let count = of.frame_words(place);
    let first = of.operand(first);
    let second = of.operand(second);
    let (conditions, many) = span(of, condition);
    if many == count {
        write_chosen(conditions, first, second, at, count, frame);
    } else {
        write_whole(conditions, first, second, at, count, frame);
    }
}

/// Where the value of an id begins in the frame, and how many words it has; none without a definition.
fn span(of: &ModuleFrame<'_>, id: u32) -> (usize, usize)
    ensures start { (place : ℕ) → definition of.now.insts id ≡ Some place
        → result.0 ≡ frame_place (program_of of.now.insts) place }
    ensures count { (place : ℕ) → definition of.now.insts id ≡ Some place
        → result.1 ≡ frame_words (program_of of.now.insts) (inst_at of.now.insts place) }
{
    match of.definition(id) {
        Some(place) => (
            of.frame_place(place as usize),
            of.frame_words(place as usize),
        ),
        None => (0, 0),
    }
}
