ghost use Rattle.std.specs.Prelude.{◌≡◌, ℕ, ◌+◌, ◌<◌, ◌^◌, length, None, Some};
ghost use Rattle.spirv_model.specs.Operands.{word_at};
ghost use Rattle.valid_model.specs.Definitions.{definition, inst_at};
ghost use Rattle.check_model.specs.Validity.{IsValidList};
ghost use Rattle.stage_model.specs.Machine.{State, Machine, jump, run};
ghost use Rattle.stage_model.specs.Start.{Values};
ghost use Rattle.stage_model.specs.Program.{program_of};
ghost use Rattle.stage_model.specs.Stage.{enough_steps};
ghost use Rattle.stage_model.specs.declared.outcome.Kind as of_kind;
ghost use Rattle.frame_model.specs.Shown.{IsFrame};
ghost use Rattle.spv_exec.specs.Branches.{GoesAt};
ghost use Rattle.spv_exec.specs.Phis.{PhisRead, ShowsTaken};
ghost use Rattle.spv_exec.specs.Walks.{EndsSo, EndsSome, IsAt, LeadsTo, Stands, StandsSome, StepsTo, start};

use crate::accesses::run_store;
use crate::branches::target;
use crate::module_frame::ModuleFrame;
use crate::phis::{run_phi, take_phis};
use crate::results::run_result;
use crate::stand::{End, Stand};
use limits::BACK_EDGES;
use spirv_model::op;
use stage_model::Kind;

/// OpLabel: its block is entered, and what its phis take is kept.
fn enter(of: &ModuleFrame<'_>, at: &mut Stand, frame: &[u32], incoming: &mut [u32])
    requires within { at.old.place < length of.now.insts }
    requires few { length of.now.insts < 2 ^ 32 }
    ensures stands { at.new ≡ record at.old {
      place = at.old.place + 1;
      label = word_at 0 (inst_at of.now.insts at.old.place);
      before = at.old.label;
    } }
    ensures taken { (values : Values) → IsFrame (program_of of.now.insts) frame.now
        → IsFrame (program_of of.now.insts) incoming.old
        → PhisRead (program_of of.now.insts) frame.now values at.old.label (at.old.place + 1)
        → ShowsTaken (program_of of.now.insts) incoming.new values at.old.label (at.old.place + 1) }
{
    let before = at.label;
    let first = at.place + 1;
    at.before = before;
    at.label = of.inst(at.place).word(0);
    at.place = first;
    take_phis(of, first, before, frame, incoming);
}

/// A branch: on to the label's place, or back to it; the last back edge loses the invocation.
fn branch(of: &ModuleFrame<'_>, at: &mut Stand, frame: &[u32]) -> Option<Kind>
    requires within { at.old.place < length of.now.insts }
    requires few { at.old.back_edges < BACK_EDGES }
    ensures jumps { (label to : ℕ) (state : State) → IsValidList of.now
        → GoesAt (program_of of.now.insts) frame.now at.old.place label → definition of.now.insts label ≡ Some to
        → IsAt state at.old → LeadsTo result at.new (jump at.old.place to state) }
    ensures few { result ≡ None → at.new.back_edges < BACK_EDGES }
    ensures work { at.new.work ≡ at.old.work }
{
    let to = of.definition(target(of, at.place, frame)).unwrap_or(0) as usize;
    if to > at.place {
        at.place = to;
        return None;
    }
    at.back_edges += 1;
    if at.back_edges >= BACK_EDGES {
        return Some(Kind::Lost);
    }
    at.place = to;
    None
}

/// Runs one instruction; gives how the invocation ended, where it did.
fn step(
    of: &ModuleFrame<'_>,
    at: &mut Stand,
    frame: &mut [u32],
    incoming: &mut [u32],
    memory: &mut [u32],
) -> Option<Kind>
    requires stands { StandsSome of.now at.old frame.old incoming.old memory.old }
    requires room { at.old.work < 2 ^ 63 }
    ensures steps { (m : Machine) → Stands of.now m at.old frame.old incoming.old memory.old
        → StepsTo of.now m result at.new frame.new incoming.new memory.new }
    ensures work { at.new.work ≡ at.old.work + 1 }
{
    at.work += 1;
    match of.inst(at.place).op {
        op::LABEL => {
            enter(of, at, frame, incoming);
            None
        }
        op::PHI => {
            run_phi(of, at.place, incoming, frame);
            at.place += 1;
            None
        }
        op::SELECTION_MERGE | op::LOOP_MERGE => {
            at.place += 1;
            None
        }
        op::STORE => {
            run_store(of, at.place, frame, memory);
            at.place += 1;
            None
        }
        op::BRANCH | op::BRANCH_CONDITIONAL | op::SWITCH => branch(of, at, frame),
        op::RETURN => Some(Kind::Done),
        op::UNREACHABLE => Some(Kind::Done),
        op::KILL => Some(Kind::Killed),
        _ => {
            run_result(of, at.place, frame, memory);
            at.place += 1;
            None
        }
    }
}

/// Runs an invocation to its end.
pub fn walk(
    of: &ModuleFrame<'_>,
    first: usize,
    frame: &mut [u32],
    incoming: &mut [u32],
    memory: &mut [u32],
) -> End
    requires { EndsSome of.now (start first) frame.old incoming.old memory.old }
    ensures { (m : Machine) (kind : of_kind.Kind) (state : State)
        → Stands of.now m (start first) frame.old incoming.old memory.old
        → run (enough_steps of.now.insts) (program_of of.now.insts) m ≡ Some (kind, state)
        → EndsSo of.now result memory.new kind state }
{
    let mut at = Stand {
        place: first,
        label: 0,
        before: 0,
        back_edges: 0,
        work: 0,
    };
    loop {
        if let Some(kind) = step(of, &mut at, frame, incoming, memory) {
            return End {
                kind,
                work: at.work,
            };
        }
    }
}
