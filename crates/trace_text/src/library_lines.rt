//! The lines that make libraries, by their fields after the first.
ghost use Rattle.std.specs.Prelude.{◌≡◌, ◌≤◌, IfOk, IfSome, length};
ghost use Rattle.std.specs.Option.{option_map};
ghost use Rattle.trace_model.specs.LibraryLines as spec;
ghost use Rattle.trace_model.specs.Lines.{output_line};
ghost use Rattle.trace_text.specs.Lines.{Reads, Says};
ghost use Rattle.trace_text.specs.LibraryLines as lines;

use crate::each::{FieldValue, at_most, exactly};
use crate::field_cursor::FieldCursor;
use crate::field_values::{
    colour_value, flag_value, format_components, multisample_value, range_value, small_below,
    topology_value, view_mask_value, word_choice,
};
use crate::number::Number;
use crate::places::attachments_of;
use crate::recorder_lines::attachment_count;
use limits::{ENTRIES, LOCATIONS, MAX_OFFSET, VERTEX_BINDINGS};
use sqlite_items::Items;
use state_model::format::FORMAT_R32_SINT;
use state_model::vulkan::{CULL_MODE_FRONT_AND_BACK, LOGIC_OP_SET};
use state_model::{
    Attachment, Attribute, Depth, Entry, Multisample, OutputPart, Topology, VertexBinding,
};
use std::alloc::Global;
use std::marker::Model;
use trace_model::limit::FIRST_ENTRIES;
use trace_model::line_fault::Cause;
use trace_model::whole::Version;

/// An attribute and its location.
#[derive(Drop)]
pub struct Located {
    location: u8,
    attribute: Attribute,
}

impl Model for Located {
    ghost use Rattle.limits.specs.declared.TheConstants.{LOCATIONS};
    ghost use Rattle.std.specs.Prelude.{◌<◌};
    ghost use Rattle.trace_model.specs.Lines.{LocatedAttribute};
    ghost use Rattle.trace_text.specs.Located.{located};

    ghost Value = { LocatedAttribute };

    ghost view = { λ l. located l.location l.attribute };
}

impl Located {
    pub fn location(&self) -> u8
        ensures { result ≡ self.now.location }
    {
        self.location
    }

    pub fn attribute(&self) -> Attribute
        ensures { result ≡ self.now.attribute }
    {
        self.attribute
    }
}

/// `location:binding:format:offset`.
impl FieldValue<'_> for Located {
    ghost use Rattle.trace_model.specs.LibraryLines.{attribute_value};

    ghost value = { attribute_value };

    fn read(field: &[u8]) -> Option<Located> {
        let mut parts = FieldCursor::new(field, b':');
        let (location, binding, format, offset) = parts.next_four()?;
        if !parts.is_done() {
            return None;
        }
        let location = small_below(LOCATIONS as u8, location)?;
        let binding = small_below(VERTEX_BINDINGS as u8, binding)?;
        let format = colour_value(format)?;
        let offset = range_value(0, MAX_OFFSET, offset)?;
        Some(Located {
            location,
            attribute: Attribute {
                binding,
                comps: format_components(format),
                signed: format >= FORMAT_R32_SINT,
                offset,
            },
        })
    }
}

/// A vertex input interface, its attributes in the order of the line.
#[derive(Drop)]
pub struct VertexLine {
    pub retain: bool,
    pub topology: Topology,
    pub bindings: [Option<VertexBinding>; VERTEX_BINDINGS],
    pub attributes: Items<Located>,
}

/// Pre-rasterization shaders.
#[derive(Drop)]
pub struct PrerastLine<'a> {
    pub retain: bool,
    pub module: Number<'a>,
    pub layout: Number<'a>,
    pub view_mask: u8,
    pub discard: bool,
    pub cull: u8,
    pub ccw: bool,
    pub entries: Items<Entry>,
}

/// A fragment shader.
#[derive(Drop)]
pub struct FragmentLine<'a> {
    pub retain: bool,
    pub module: Number<'a>,
    pub layout: Number<'a>,
    pub view_mask: u8,
    pub depth: Option<Depth>,
    pub multisample: Option<Multisample>,
    pub entries: Items<Entry>,
}

/// How many entries of one stage a version has.
fn entry_count(version: Version) -> usize
    ensures value { result ≡ spec.entry_count version }
    ensures few { result ≤ 16 }
{
    match version {
        Version::First => FIRST_ENTRIES,
        Version::Second => ENTRIES,
    }
}

/// The entries of a stage.
fn entries_value(
    alloc: Global,
    version: Version,
    fields: &mut FieldCursor<'_>,
) -> Result<Items<Entry>, Cause>
    ensures value { Reads (λ entries. entries) result (spec.entries_value version fields.old) }
    ensures few { IfOk result (λ entries. length entries ≤ 16) }
{
    let entries = at_most::<Entry>(alloc, entry_count(version), fields)?;
    entries.ok_or(Cause::BadLine)
}

#[tactic(auto, unfolding(trace_model::specs::LibraryLines::vertex_form))]
pub fn vertex_form(alloc: Global, fields: &mut FieldCursor<'_>) -> Result<VertexLine, Cause>
    ensures { Says lines.vertex_line_of result (spec.vertex_form fields.old) }
{
    let (retain, topology, a, b, c, d) = fields.next_six().ok_or(Cause::BadLine)?;
    let retain = flag_value(retain).ok_or(Cause::BadLine)?;
    let topology = topology_value(topology).ok_or(Cause::BadLine)?;
    let bindings = four_bindings(a, b, c, d).ok_or(Cause::BadLine)?;
    let attributes = at_most::<Located>(alloc, LOCATIONS, fields)?.ok_or(Cause::BadLine)?;
    Ok(VertexLine {
        retain,
        topology,
        bindings,
        attributes,
    })
}

/// The bindings by their numbers.
fn four_bindings(
    a: &[u8],
    b: &[u8],
    c: &[u8],
    d: &[u8],
) -> Option<[Option<VertexBinding>; VERTEX_BINDINGS]>
    ensures { result ≡ lines.four_bindings a.now b.now c.now d.now }
{
    Some([
        FieldValue::read(a)?,
        FieldValue::read(b)?,
        FieldValue::read(c)?,
        FieldValue::read(d)?,
    ])
}

#[tactic(auto, unfolding(trace_model::specs::LibraryLines::prerast_form))]
pub fn prerast_form<'a>(
    alloc: Global,
    version: Version,
    fields: &mut FieldCursor<'a>,
) -> Result<PrerastLine<'a>, Cause>
    ensures said { Says lines.prerast_line_of result (spec.prerast_form version fields.old) }
    ensures few { IfOk result (λ line. length line.entries ≤ 16) }
{
    let (retain, module, layout, views, discard, cull, front) = fields
        .next_seven()
        .ok_or(Cause::BadLine)?;
    let retain = flag_value(retain).ok_or(Cause::BadLine)?;
    let module = Number::read(module).ok_or(Cause::BadLine)?;
    let layout = Number::read(layout).ok_or(Cause::BadLine)?;
    let view_mask = view_mask_value(views).ok_or(Cause::BadLine)?;
    let discard = flag_value(discard).ok_or(Cause::BadLine)?;
    let cull = cull_value(cull).ok_or(Cause::BadLine)?;
    let ccw = word_choice(b"cw", b"ccw", front).ok_or(Cause::BadLine)?;
    let entries = entries_value(alloc, version, fields)?;
    Ok(PrerastLine {
        retain,
        module,
        layout,
        view_mask,
        discard,
        cull,
        ccw,
        entries,
    })
}

fn cull_value(field: &[u8]) -> Option<u8>
    ensures { result ≡ lines.cull_value field.now }
{
    let cull = range_value(0, u32::from(CULL_MODE_FRONT_AND_BACK), field)?;
    Some(cull as u8)
}

#[tactic(auto, unfolding(trace_model::specs::LibraryLines::fragment_form))]
pub fn fragment_form<'a>(
    alloc: Global,
    version: Version,
    fields: &mut FieldCursor<'a>,
) -> Result<FragmentLine<'a>, Cause>
    ensures said { Says lines.fragment_line_of result (spec.fragment_form version fields.old) }
    ensures few { IfOk result (λ line. length line.entries ≤ 16) }
{
    let (retain, module, layout, views, depth, multisample) = fields
        .next_six()
        .ok_or(Cause::BadLine)?;
    let retain = flag_value(retain).ok_or(Cause::BadLine)?;
    let module = Number::read(module).ok_or(Cause::BadLine)?;
    let layout = Number::read(layout).ok_or(Cause::BadLine)?;
    let view_mask = view_mask_value(views).ok_or(Cause::BadLine)?;
    let depth = FieldValue::read(depth).ok_or(Cause::BadLine)?;
    let multisample = FieldValue::read(multisample).ok_or(Cause::BadLine)?;
    let entries = entries_value(alloc, version, fields)?;
    Ok(FragmentLine {
        retain,
        module,
        layout,
        view_mask,
        depth,
        multisample,
        entries,
    })
}

#[tactic(auto, unfolding(trace_model::specs::LibraryLines::output_form))]
pub fn output_form(
    alloc: Global,
    version: Version,
    fields: &mut FieldCursor<'_>,
) -> Result<OutputPart, Cause>
    ensures { Says output_line result (spec.output_form version fields.old) }
{
    let (retain, views, multisample, logic) = fields.next_four().ok_or(Cause::BadLine)?;
    let retain = flag_value(retain).ok_or(Cause::BadLine)?;
    let view_mask = view_mask_value(views).ok_or(Cause::BadLine)?;
    let multisample = multisample_value(multisample).ok_or(Cause::BadLine)?;
    let logic = logic_value(logic).ok_or(Cause::BadLine)?;
    let list = exactly::<Option<Attachment>>(alloc, attachment_count(version), fields)?.ok_or(
        Cause::BadLine,
    )?;
    Ok(OutputPart {
        retain,
        view_mask,
        multisample,
        logic,
        attachments: attachments_of(list.as_slice()),
    })
}

/// A logic operation, or none.
fn logic_value(field: &[u8]) -> Option<Option<u8>>
    ensures { result ≡ lines.logic_value field.now }
{
    if field == b"-".as_slice() {
        return Some(None);
    }
    let logic = range_value(0, u32::from(LOGIC_OP_SET), field)?;
    Some(Some(logic as u8))
}
