ghost use Rattle.std.specs.Prelude.{◌≡◌, ◌<◌, ◌≤◌, List, [], ◌∷◌, length, drop};
ghost use Rattle.valid_model.specs.Definitions.{inst_at};
ghost use Rattle.stage_model.specs.Value.{Value};
ghost use Rattle.stage_model.specs.Start.{Values};
ghost use Rattle.stage_model.specs.Program.{program_of};
ghost use Rattle.stage_model.specs.Effect.{paired_with};
ghost use Rattle.frame_model.specs.Frame.{frame_place, in_frame};
ghost use Rattle.frame_model.specs.Shown.{IsFrame, StandsAt};
ghost use Rattle.frame_model.specs.Written.{written};
ghost use Rattle.spv_exec.specs.Phis.{ListsId, PhiReads, PhisRead, ShowsTaken};

use crate::copies::copy_words;
use crate::module_frame::ModuleFrame;
use spirv_model::op;

/// The id that a phi pairs with a block, among its words from the pairs on (SPIR-V specification, OpPhi); none where it names none.
fn paired(pairs: &[u32], before: u32) -> Option<u32>
    ensures { ListsId (paired_with before pairs.now) result }
{
    let mut rest = pairs;
    while let [value, block, after @ ..] = rest {
        if *block == before {
            return Some(*value);
        }
        rest = after;
    }
    None
}

/// Copies what the phi at a place takes, coming from a block, to its result's place in `incoming`.
fn take_phi(of: &ModuleFrame<'_>, place: usize, before: u32, frame: &[u32], incoming: &mut [u32])
    requires { place < length of.now.insts }
    ensures { (values : Values) → IsFrame (program_of of.now.insts) frame.now
        → IsFrame (program_of of.now.insts) incoming.old
        → (r : PhiReads (program_of of.now.insts) frame.now values before place)
        → incoming.new ≡ written incoming.old (frame_place (program_of of.now.insts) place)
        (in_frame (program_of of.now.insts) r.value) }
{
    if let Some(id) = paired(of.inst(place).words_from(2), before) {
        copy_words(
            frame,
            of.operand(id),
            of.frame_words(place),
            incoming,
            of.frame_place(place),
        );
    }
}

/// Copies what the phis from a place on take, coming from a block, to their results' places in `incoming`.
pub fn take_phis(
    of: &ModuleFrame<'_>,
    first: usize,
    before: u32,
    frame: &[u32],
    incoming: &mut [u32],
)
    requires { first ≤ length of.now.insts }
    ensures { (values : Values) → IsFrame (program_of of.now.insts) frame.now
        → IsFrame (program_of of.now.insts) incoming.old
        → PhisRead (program_of of.now.insts) frame.now values before first
        → ShowsTaken (program_of of.now.insts) incoming.new values before first }
{
    let mut place = first;
    while place < of.count() {
        if of.inst(place).op != op::PHI {
            return;
        }
        take_phi(of, place, before, frame, incoming);
        place += 1;
    }
}

/// OpPhi: what was taken for it.
pub fn run_phi(of: &ModuleFrame<'_>, place: usize, incoming: &[u32], frame: &mut [u32])
    requires { place < length of.now.insts }
    ensures { (value : Value) → IsFrame (program_of of.now.insts) frame.old
        → IsFrame (program_of of.now.insts) incoming.now
        → StandsAt (program_of of.now.insts) incoming.now place value
        → frame.new ≡ written frame.old (frame_place (program_of of.now.insts) place)
        (in_frame (program_of of.now.insts) value) }
{
    let at = of.frame_place(place);
    copy_words(incoming, at, of.frame_words(place), frame, at);
}
