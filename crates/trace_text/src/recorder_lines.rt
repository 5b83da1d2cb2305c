//! The lines that a recorder records, by their fields after the first.
ghost use Rattle.std.specs.Prelude.{◌≡◌, ◌≤◌, ◌+◌, IfOk, length};
ghost use Rattle.std.specs.Option.{option_map};
ghost use Rattle.trace_model.specs.RecorderLines as spec;
ghost use Rattle.trace_text.specs.Lines.{Says};
ghost use Rattle.trace_text.specs.RecorderLines as lines;

use crate::each::{FieldValue, exactly, some_of};
use crate::field_cursor::FieldCursor;
use crate::field_values::{range_value, small_below, word_number};
use crate::number::Number;
use draw_model::DrawCall;
use draw_model::command::DRAW_VERTICES;
use limits::{
    ATTACHMENTS, DESCRIPTOR_BINDINGS, DESCRIPTOR_SETS, MAX_SIDE, PUSH_WORDS, VERTEX_BINDINGS,
};
use sqlite_items::Items;
use std::alloc::Global;
use trace_model::limit::{FIRST_ATTACHMENTS, RECORDERS};
use trace_model::line_fault::Cause;
use trace_model::whole::Version;

/// Push constants, from the one with this number on.
#[derive(Drop)]
pub struct PushLine {
    pub recorder: u8,
    pub at: u8,
    pub words: Items<u32>,
}

/// The buffer for a vertex binding, or none.
#[derive(Drop)]
pub struct VbufLine<'a> {
    pub recorder: u8,
    pub slot: u8,
    pub buffer: Option<Number<'a>>,
}

/// The buffer for a binding of a descriptor set, or none.
#[derive(Drop)]
pub struct UbufLine<'a> {
    pub recorder: u8,
    pub set: u8,
    pub binding: u8,
    pub buffer: Option<Number<'a>>,
}

/// The scissor.
#[derive(Drop)]
pub struct ScissorLine {
    pub recorder: u8,
    pub rect: [u32; 4],
}

/// A target for each attachment of the version, and one for depth.
#[derive(Drop)]
pub struct BindLine<'a> {
    pub recorder: u8,
    pub targets: Items<Option<Number<'a>>>,
}

/// A draw with a pipe.
#[derive(Drop)]
pub struct DrawLine<'a> {
    pub recorder: u8,
    pub pipe: Number<'a>,
    pub call: DrawCall,
}

fn recorder_value(field: &[u8]) -> Option<u8>
    ensures { result ≡ lines.recorder_value field.now }
{
    small_below(RECORDERS as u8, field)
}

#[tactic(auto, unfolding(trace_model::specs::RecorderLines::push_form))]
pub fn push_form(alloc: Global, fields: &mut FieldCursor<'_>) -> Result<PushLine, Cause>
    ensures { Says lines.push_line result (spec.push_form fields.old) }
{
    let (recorder, at) = fields.next_two().ok_or(Cause::BadLine)?;
    let recorder = recorder_value(recorder).ok_or(Cause::BadLine)?;
    let at = small_below(PUSH_WORDS, at).ok_or(Cause::BadLine)?;
    let words = some_of::<u32>(alloc, usize::from(PUSH_WORDS - at), fields)?;
    Ok(PushLine {
        recorder,
        at,
        words: words.ok_or(Cause::BadLine)?,
    })
}

#[tactic(auto, unfolding(trace_model::specs::RecorderLines::vbuf_form))]
pub fn vbuf_form<'a>(fields: &mut FieldCursor<'a>) -> Option<VbufLine<'a>>
    ensures { spec.vbuf_form fields.old ≡ option_map lines.vbuf_line result }
{
    let (recorder, slot, buffer) = fields.next_three()?;
    if !fields.is_done() {
        return None;
    }
    Some(VbufLine {
        recorder: recorder_value(recorder)?,
        slot: small_below(VERTEX_BINDINGS as u8, slot)?,
        buffer: FieldValue::read(buffer)?,
    })
}

#[tactic(auto, unfolding(trace_model::specs::RecorderLines::ubuf_form))]
pub fn ubuf_form<'a>(fields: &mut FieldCursor<'a>) -> Option<UbufLine<'a>>
    ensures { spec.ubuf_form fields.old ≡ option_map lines.ubuf_line result }
{
    let (recorder, set, binding, buffer) = fields.next_four()?;
    if !fields.is_done() {
        return None;
    }
    Some(UbufLine {
        recorder: recorder_value(recorder)?,
        set: small_below(DESCRIPTOR_SETS as u8, set)?,
        binding: small_below(DESCRIPTOR_BINDINGS as u8, binding)?,
        buffer: FieldValue::read(buffer)?,
    })
}

#[tactic(auto, unfolding(trace_model::specs::RecorderLines::scissor_form))]
pub fn scissor_form(fields: &mut FieldCursor<'_>) -> Option<ScissorLine>
    ensures { spec.scissor_form fields.old ≡ option_map lines.scissor_line result }
{
    let (recorder, x, y, width, height) = fields.next_five()?;
    if !fields.is_done() {
        return None;
    }
    let recorder = recorder_value(recorder)?;
    let x = range_value(0, MAX_SIDE, x)?;
    let y = range_value(0, MAX_SIDE, y)?;
    let width = range_value(0, MAX_SIDE - x, width)?;
    let height = range_value(0, MAX_SIDE - y, height)?;
    Some(ScissorLine {
        recorder,
        rect: [x, y, width, height],
    })
}

/// How many attachments a version has.
pub fn attachment_count(version: Version) -> usize
    ensures value { result ≡ lines.attachment_count version }
    ensures few { result ≤ 8 }
{
    match version {
        Version::First => FIRST_ATTACHMENTS,
        Version::Second => ATTACHMENTS,
    }
}

#[tactic(auto, unfolding(trace_model::specs::RecorderLines::bind_form))]
pub fn bind_form<'a>(
    alloc: Global,
    version: Version,
    fields: &mut FieldCursor<'a>,
) -> Result<BindLine<'a>, Cause>
    ensures said { Says (lines.bind_line version) result (spec.bind_form version fields.old) }
    ensures count { IfOk result
        (λ line. length line.targets ≡ lines.attachment_count version + 1) }
{
    let recorder = fields.next_part().ok_or(Cause::BadLine)?;
    let recorder = recorder_value(recorder).ok_or(Cause::BadLine)?;
    let targets = exactly::<Option<Number<'a>>>(alloc, attachment_count(version) + 1, fields)?;
    Ok(BindLine {
        recorder,
        targets: targets.ok_or(Cause::BadLine)?,
    })
}

#[tactic(auto, unfolding(trace_model::specs::RecorderLines::draw_form))]
pub fn draw_form<'a>(fields: &mut FieldCursor<'a>) -> Option<DrawLine<'a>>
    ensures { spec.draw_form fields.old ≡ option_map lines.draw_line result }
{
    let (recorder, pipe, first_vertex, vertices, first_instance, instances) = fields.next_six()?;
    if !fields.is_done() {
        return None;
    }
    let recorder = recorder_value(recorder)?;
    let pipe = Number::read(pipe)?;
    let call = DrawCall {
        first_vertex: word_number(first_vertex)?,
        vertices: word_number(vertices)?,
        first_instance: word_number(first_instance)?,
        instances: word_number(instances)?,
    };
    if u64::from(call.vertices) * u64::from(call.instances) > u64::from(DRAW_VERTICES) {
        return None;
    }
    Some(DrawLine {
        recorder,
        pipe,
        call,
    })
}
