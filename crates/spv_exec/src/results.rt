ghost use Rattle.std.specs.Prelude.{◌≡◌, ◌==◌, ℕ, true, List, Some};
ghost use Rattle.valid_model.specs.Definitions.{inst_at};
ghost use Rattle.stage_model.specs.Value.{Value};
ghost use Rattle.stage_model.specs.Start.{Memory};
ghost use Rattle.stage_model.specs.Program.{program_of};
ghost use Rattle.frame_model.specs.Frame.{frame_place, in_frame};
ghost use Rattle.frame_model.specs.Shown.{ShowsMemory};
ghost use Rattle.frame_model.specs.Written.{GivesAt, written};
ghost use Rattle.spv_exec.specs.Accesses.{LoadsSome};
ghost use Rattle.spv_exec.specs.Opcodes.{gives_result};

use crate::accesses::{run_chain, run_load, run_variable};
use crate::composites::{run_construct, run_extract, run_insert, run_shuffle, run_undef};
use crate::module_frame::ModuleFrame;
use crate::operations::run_operation;
use spirv_model::op;

/// Runs an instruction of a block, OpPhi aside, that gives its result a value.
pub fn run_result(of: &ModuleFrame<'_>, place: usize, frame: &mut [u32], memory: &[u32])
    requires gives { LoadsSome (program_of of.now.insts) frame.old memory.now place }
    requires is { gives_result (inst_at of.now.insts place).op ≡ true }
    ensures { (held : Memory) (value : Value)
        → ShowsMemory (program_of of.now.insts) memory.now held
        → GivesAt (program_of of.now.insts) frame.old held place value
        → frame.new ≡ written frame.old (frame_place (program_of of.now.insts) place)
        (in_frame (program_of of.now.insts) value) }
{
    match of.inst(place).op {
        op::VARIABLE => run_variable(of, place, frame),
        op::LOAD => run_load(of, place, frame, memory),
        op::ACCESS_CHAIN => run_chain(of, place, frame),
        op::UNDEF => run_undef(of, place, frame),
        op::VECTOR_SHUFFLE => run_shuffle(of, place, frame),
        op::COMPOSITE_CONSTRUCT => run_construct(of, place, frame),
        op::COMPOSITE_EXTRACT => run_extract(of, place, frame),
        op::COMPOSITE_INSERT => run_insert(of, place, frame),
        _ => run_operation(of, place, frame),
    }
}
