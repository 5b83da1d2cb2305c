ghost use Rattle.std.specs.Prelude.{◌≡◌, ◌<◌, ℕ, length, slice_index, Some};
ghost use Rattle.valid_model.specs.Definitions.{definition};
ghost use Rattle.check_model.specs.Validity.{IsValidList};
ghost use Rattle.frame_model.specs.Frame.{frame_place};
ghost use Rattle.stage_model.specs.Program.{program_of};
ghost use Rattle.stage_model.specs.Effect.{target_for};
ghost use Rattle.spv_exec.specs.Branches.{GoesAt};

use crate::module_frame::ModuleFrame;
use spirv_model::op;

/// The target of the literal that equals the selector, among literals and targets by turns; else the default.
fn target_for(selector: u32, default: u32, cases: &[u32]) -> u32
    ensures { result ≡ target_for selector default cases.now }
{
    let mut rest = cases;
    while let [literal, target, after @ ..] = rest {
        if *literal == selector {
            return *target;
        }
        rest = after;
    }
    default
}

/// The first word of an id in the frame.
fn word_of(of: &ModuleFrame<'_>, id: u32, frame: &[u32]) -> u32
    ensures { (place : ℕ) → definition of.now.insts id ≡ Some place
        → result ≡ slice_index frame.now (frame_place (program_of of.now.insts) place) }
{
    frame.get(of.operand(id)).copied().unwrap_or(0)
}

/// The label to which the branch at a place goes (SPIR-V specification, OpBranch, OpBranchConditional and OpSwitch).
pub fn target(of: &ModuleFrame<'_>, place: usize, frame: &[u32]) -> u32
    requires { place < length of.now.insts }
    ensures { (label : ℕ) → IsValidList of.now
        → GoesAt (program_of of.now.insts) frame.now place label
        → result ≡ label }
{
    let inst = of.inst(place);
    match inst.op {
        op::BRANCH => inst.word(0),
        op::BRANCH_CONDITIONAL => {
            if word_of(of, inst.word(0), frame) == 0 {
                inst.word(2)
            } else {
                inst.word(1)
            }
        }
        _ => target_for(
            word_of(of, inst.word(0), frame),
            inst.word(1),
            inst.words_from(2),
        ),
    }
}
