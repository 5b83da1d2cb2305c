//! What becomes of the samples of each fragment of a draw.
ghost use Rattle.std.specs.Prelude.{◌≡◌, ◌<◌};
ghost use Rattle.std.specs.List.{list_any};
ghost use Rattle.state_model.specs.Lawful.{present_at};
ghost use Rattle.draw_model.specs.SampleWrites.{has_output};
ghost use Rattle.int_device.specs.SampleRules.{bound_attachment, bound_depth, is_output_told, rules_of};

use draw_model::Dynamic;
use limits::ATTACHMENTS;
use spirv_model::{Inst, op, storage_class};
use spv_check::Module;
use spv_types::Ids;
use state_model::{Attachment, Depth, FragmentPart, OutputPart};

/// A depth test, and the number of the target that it reads and writes.
#[derive(Clone, Copy, Debug, PartialEq, Eq)]
pub struct BoundDepth {
    /// The test.
    pub depth: Depth,
    /// The target's number.
    pub number: u16,
}

/// An attachment, and the number of the target that it writes.
#[derive(Clone, Copy, Debug, PartialEq, Eq)]
pub struct BoundAttachment {
    /// The attachment.
    pub attachment: Attachment,
    /// The target's number.
    pub number: u16,
}

/// What becomes of the samples of each fragment of a draw.
#[derive(Clone, Copy, Debug, PartialEq, Eq)]
pub struct SampleRules {
    /// Samples of each pixel.
    pub samples: u8,
    /// Bit i for sample i.
    pub mask: u8,
    /// The depth test, where a target is bound for it.
    pub depth: Option<BoundDepth>,
    /// One of the `LOGIC_OP`s of `state_model::vulkan`, where logic operations are enabled.
    pub logic: Option<u8>,
    /// By location, what the module's output there writes.
    pub attachments: [Option<BoundAttachment>; ATTACHMENTS],
}

fn is_output_at(ids: &Ids, location: u32, inst: &Inst) -> bool
    ensures { result ≡ is_output_told ids.now location inst.now }
{
    inst.op == op::VARIABLE
        && inst.word(2) == storage_class::OUTPUT
        && ids.location(inst.word(1)) == Some(location)
}

fn has_output_told(insts: &[Inst], ids: &Ids, location: u32) -> bool
    ensures { result ≡ list_any (is_output_told ids.now location) insts.now }
{
    insts.iter().any(|inst| is_output_at(ids, location, inst))
}

// Whether the module has an output at the location.
#[tactic(auto, using(crate::proofs::Outputs::output_is))]
fn has_output(shader: &Module, location: usize) -> bool
    requires { location < ATTACHMENTS }
    ensures { result ≡ has_output shader.now.insts location }
{
    has_output_told(shader.insts(), shader.ids(), location as u32)
}

fn bound_depth(depth: Option<Depth>, number: Option<u16>) -> Option<BoundDepth>
    ensures { result ≡ bound_depth depth number }
{
    Some(BoundDepth {
        depth: depth?,
        number: number?,
    })
}

fn bound_attachment(
    written: bool,
    attachment: Option<Attachment>,
    number: Option<u16>,
) -> Option<BoundAttachment>
    ensures { result ≡ bound_attachment written attachment number }
{
    if !written {
        return None;
    }
    Some(BoundAttachment {
        attachment: attachment?,
        number: number?,
    })
}

#[tactic(auto, using(crate::proofs::CanvasLaws::present_is))]
fn attachment_at(
    shader: &Module,
    output: &OutputPart,
    dynamic: &Dynamic,
    location: usize,
) -> Option<BoundAttachment>
    requires { location < ATTACHMENTS }
    ensures { bound_attachment (has_output shader.now.insts location)
        (present_at output.now.attachments location) (present_at dynamic.now.colour location) ≡ result }
{
    bound_attachment(
        has_output(shader, location),
        output.attachments[location],
        dynamic.colour[location],
    )
}

/// The rules of a draw with this fragment shader and these parts.
#[tactic(auto, unfolding(crate::specs::SampleRules::rules_of))]
pub fn rules_of(
    shader: &Module,
    part: &FragmentPart,
    output: &OutputPart,
    dynamic: &Dynamic,
) -> SampleRules
    ensures { result ≡ rules_of
        (record { insts = shader.now.insts; part = part.now; output = output.now }) dynamic.now }
{
    SampleRules {
        samples: output.multisample.samples,
        mask: output.multisample.mask,
        depth: bound_depth(part.depth, dynamic.depth),
        logic: output.logic,
        attachments: [
            attachment_at(shader, output, dynamic, 0),
            attachment_at(shader, output, dynamic, 1),
            attachment_at(shader, output, dynamic, 2),
            attachment_at(shader, output, dynamic, 3),
            attachment_at(shader, output, dynamic, 4),
            attachment_at(shader, output, dynamic, 5),
            attachment_at(shader, output, dynamic, 6),
            attachment_at(shader, output, dynamic, 7),
        ],
    }
}
