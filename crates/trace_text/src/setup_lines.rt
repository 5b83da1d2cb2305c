//! The lines that make objects other than libraries, by their fields after the first.
ghost use Rattle.std.specs.Prelude.{◌≡◌, IfSome};
ghost use Rattle.trace_model.specs.Lines.{data_line, code_line, layout_line, pipe_line};
ghost use Rattle.trace_model.specs.SetupLines as spec;
ghost use Rattle.std.specs.Option.{option_map};
ghost use Rattle.trace_text.specs.Lines.{Says, IsTargetLine, target_line_of};

use crate::each::{at_most, each, exactly, some_of};
use crate::field_cursor::FieldCursor;
use crate::field_values::{flag_value, format_value, range_value, samples_value, small_below};
use crate::number::Number;
use crate::numbers::hex_word;
use crate::places::sets_of;
use draw_model::framebuffer::MAX_LAYERS;
use limits::{DESCRIPTOR_SETS, MAX_SIDE, PUSH_WORDS};
use sqlite_items::Items;
use state_model::Layout;
use std::alloc::Global;
use trace_model::limit::{BUFFER_WORDS, PIPE_LIBRARIES, RECORDERS};
use trace_model::line_fault::Cause;

/// A buffer's words.
#[tactic(auto, unfolding(trace_model::specs::SetupLines::data_form))]
pub fn data_form(alloc: Global, fields: &mut FieldCursor<'_>) -> Result<Items<u32>, Cause>
    ensures { Says data_line result (spec.data_form fields.old) }
{
    let words = at_most::<u32>(alloc, BUFFER_WORDS, fields)?;
    words.ok_or(Cause::BadLine)
}

/// A module's words.
#[tactic(auto, unfolding(trace_model::specs::SetupLines::code_form))]
pub fn code_form(alloc: Global, fields: &mut FieldCursor<'_>) -> Result<Items<u32>, Cause>
    ensures { Says code_line result (spec.code_form fields.old) }
{
    let words = each::<u32>(alloc, fields)?;
    words.ok_or(Cause::BadLine)
}

#[tactic(auto, using(crate::proofs::Filled::full), unfolding(trace_model::specs::SetupLines::layout_form))]
pub fn layout_form(alloc: Global, fields: &mut FieldCursor<'_>) -> Result<Layout, Cause>
    ensures { Says layout_line result (spec.layout_form fields.old) }
{
    let (independent, push_words) = fields.next_two().ok_or(Cause::BadLine)?;
    let independent = flag_value(independent).ok_or(Cause::BadLine)?;
    let push_words = range_value(0, u32::from(PUSH_WORDS), push_words).ok_or(Cause::BadLine)?;
    let sets = exactly::<Option<u8>>(alloc, DESCRIPTOR_SETS, fields)?.ok_or(Cause::BadLine)?;
    Ok(Layout {
        independent,
        push_words: push_words as u8,
        sets: sets_of(sets.as_slice()),
    })
}

/// The numbers of a pipe's libraries.
#[tactic(auto, unfolding(trace_model::specs::SetupLines::pipe_form))]
pub fn pipe_form<'a>(
    alloc: Global,
    fields: &mut FieldCursor<'a>,
) -> Result<Items<Number<'a>>, Cause>
    ensures { Says pipe_line result (spec.pipe_form fields.old) }
{
    let numbers = some_of::<Number<'a>>(alloc, PIPE_LIBRARIES, fields)?;
    numbers.ok_or(Cause::BadLine)
}

/// A recorder's target, as it is cleared.
#[derive(Drop)]
pub struct TargetLine {
    pub recorder: u8,
    pub format: u8,
    pub width: u32,
    pub height: u32,
    pub layers: u8,
    pub samples: u8,
    /// The word of each component.
    pub clear: u32,
}

#[tactic(auto, unfolding(trace_model::specs::SetupLines::target_form))]
pub fn target_form(fields: &mut FieldCursor<'_>) -> Option<TargetLine>
    ensures said { spec.target_form fields.old ≡ option_map target_line_of result }
    ensures ranges { IfSome result IsTargetLine }
{
    let (recorder, format, width, height, layers, samples, clear) = fields.next_seven()?;
    if !fields.is_done() {
        return None;
    }
    Some(TargetLine {
        recorder: small_below(RECORDERS as u8, recorder)?,
        format: format_value(format)?,
        width: range_value(1, MAX_SIDE, width)?,
        height: range_value(1, MAX_SIDE, height)?,
        layers: range_value(1, u32::from(MAX_LAYERS), layers)? as u8,
        samples: samples_value(samples)?,
        clear: hex_word(clear)?,
    })
}
