//! What the lines add that a recorder records.
#![tactic(auto, unfolding(trace_model::specs::Reading::cause_of, trace_model::specs::LinesBefore::after_line, trace_model::specs::ObjectCauses::is_too_many, trace_model::specs::ObjectCauses::is_unknown, trace_model::specs::ObjectCauses::binds_foreign, trace_model::specs::PartCauses::is_bad_part))]

ghost use Rattle.std.specs.Prelude.{◌≡◌, ◌≤◌, ◌+◌, ◌||◌, IfOk, length, not};
ghost use Rattle.std.specs.List.{list_any};
ghost use Rattle.trace_model.specs.ObjectCauses as causes;
ghost use Rattle.trace_text.specs.RecorderLines as lines;
ghost use Rattle.trace_text.specs.Steps as steps;
ghost use Rattle.trace_text.specs.Taking.{Takes, before_of, settled};

use crate::kept_targets::KeptTargets;
use crate::made::Made;
use crate::number::Number;
use crate::places::numbers_of;
use crate::recorder_lines::{
    BindLine, DrawLine, PushLine, ScissorLine, UbufLine, VbufLine, attachment_count,
};
use draw_model::framebuffer::DEPTH_FORMAT;
use sqlite_items::Items;
use std::alloc::{AllocError, Global};
use trace_model::line_fault::Cause;
use trace_model::whole::{Step, Version};

impl Made {
    pub fn add_push(&mut self, line: PushLine) -> Result<(), Cause>
        ensures { Takes result (before_of self.new)
            (settled (before_of self.old) (lines.push_line line)) }
    {
        let PushLine {
            recorder,
            at,
            words,
        } = line;
        self.steps.push(recorder, Step::Push { at, words })?;
        Ok(())
    }

    pub fn add_vbuf(&mut self, line: &VbufLine<'_>) -> Result<(), Cause>
        ensures { Takes result (before_of self.new)
            (settled (before_of self.old) (lines.vbuf_line line.now)) }
    {
        let Some(buffer) = found(&line.buffer, self.buffers.len()) else {
            return Err(Cause::Unknown);
        };
        let slot = line.slot;
        self.steps.push(line.recorder, Step::Vbuf { slot, buffer })?;
        Ok(())
    }

    pub fn add_ubuf(&mut self, line: &UbufLine<'_>) -> Result<(), Cause>
        ensures { Takes result (before_of self.new)
            (settled (before_of self.old) (lines.ubuf_line line.now)) }
    {
        let Some(buffer) = found(&line.buffer, self.buffers.len()) else {
            return Err(Cause::Unknown);
        };
        let step = Step::Ubuf {
            set: line.set,
            binding: line.binding,
            buffer,
        };
        self.steps.push(line.recorder, step)?;
        Ok(())
    }

    pub fn add_scissor(&mut self, line: &ScissorLine) -> Result<(), Cause>
        ensures { Takes result (before_of self.new)
            (settled (before_of self.old) (lines.scissor_line line.now)) }
    {
        let rect = line.rect;
        self.steps.push(line.recorder, Step::Scissor { rect })?;
        Ok(())
    }

    pub fn add_draw(&mut self, line: &DrawLine<'_>) -> Result<(), Cause>
        ensures { Takes result (before_of self.new)
            (settled (before_of self.old) (lines.draw_line line.now)) }
    {
        if self.steps.is_full() {
            return Err(Cause::TooMany);
        }
        let Some(pipe) = line.pipe.within(self.pipes.len()) else {
            return Err(Cause::Unknown);
        };
        self.steps.push_draw(line.recorder, pipe, line.call)?;
        Ok(())
    }

    pub fn add_bind(
        &mut self,
        alloc: Global,
        version: Version,
        line: &BindLine<'_>,
    ) -> Result<(), Cause>
        requires { length line.now.targets ≡ lines.attachment_count version + 1 }
        ensures { Takes result (before_of self.new)
            (settled (before_of self.old) (lines.bind_line version line.now)) }
    {
        let (colour, depth) = line.targets.as_slice().split_at(attachment_count(version));
        let Some(colour) = colours_found(alloc, &self.targets, colour)? else {
            return Err(Cause::Unknown);
        };
        let Some(depth) = depth_found(&self.targets, depth) else {
            return Err(Cause::Unknown);
        };
        if are_foreign(&self.targets, line.recorder, colour.as_slice()) {
            return Err(Cause::ForeignTarget);
        }
        if is_foreign(&self.targets, line.recorder, depth) {
            return Err(Cause::ForeignTarget);
        }
        let colour = numbers_of(colour.as_slice());
        self.steps
            .push(line.recorder, Step::Bind { colour, depth })?;
        Ok(())
    }
}

/// The number of one of so many objects, or none; not that of another.
fn found(number: &Option<Number<'_>>, count: usize) -> Option<Option<u16>>
    requires { count ≤ 1000 }
    ensures { result ≡ steps.found count number.now }
{
    let Some(number) = number else {
        return Some(None);
    };
    let number = number.within(count)?;
    Some(Some(number))
}

/// The number of a target of this sort, or none; not that of another.
fn target_found(
    targets: &KeptTargets,
    is_depth: bool,
    number: &Option<Number<'_>>,
) -> Option<Option<u16>>
    ensures { result ≡ steps.target_found (steps.of_sort is_depth) targets.now number.now }
{
    let number = found(number, targets.len())?;
    let Some(at) = number else {
        return Some(None);
    };
    let (_, target) = targets.get(at)?;
    if (target.format == DEPTH_FORMAT) != is_depth {
        return None;
    }
    Some(number)
}

fn colours_found(
    alloc: Global,
    targets: &KeptTargets,
    numbers: &[Option<Number<'_>>],
) -> Result<Option<Items<Option<u16>>>, AllocError>
    ensures { IfOk result (λ found. found ≡ steps.colours_found targets.now numbers.now) }
{
    let mut known = Items::new(alloc);
    for number in numbers {
        let Some(number) = target_found(targets, false, number) else {
            return Ok(None);
        };
        known.push(number)?;
    }
    Ok(Some(known))
}

/// The first of these numbers, of a target for depth.
fn depth_found(targets: &KeptTargets, numbers: &[Option<Number<'_>>]) -> Option<Option<u16>>
    ensures { result ≡ steps.depth_found targets.now numbers.now }
{
    let Some((number, _)) = numbers.split_first() else {
        return Some(None);
    };
    target_found(targets, true, number)
}

fn are_foreign(targets: &KeptTargets, recorder: u8, numbers: &[Option<u16>]) -> bool
    ensures { result ≡ list_any (causes.is_foreign targets.now recorder) numbers.now }
{
    numbers
        .iter()
        .any(|number| is_foreign(targets, recorder, *number))
}

/// Whether this is the number of a target of another recorder.
fn is_foreign(targets: &KeptTargets, recorder: u8, number: Option<u16>) -> bool
    ensures { result ≡ causes.is_foreign targets.now recorder number }
{
    let Some(number) = number else {
        return false;
    };
    match targets.get(number) {
        Some((owner, _)) => *owner != recorder,
        None => false,
    }
}
