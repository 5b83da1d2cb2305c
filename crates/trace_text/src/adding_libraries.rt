//! What the lines add that make libraries.
#![tactic(auto, unfolding(trace_model::specs::Reading::cause_of, trace_model::specs::LinesBefore::after_line, trace_model::specs::ObjectCauses::is_too_many, trace_model::specs::ObjectCauses::is_unknown, trace_model::specs::ObjectCauses::binds_foreign, trace_model::specs::PartCauses::is_bad_part))]

ghost use Rattle.std.specs.Prelude.{◌≡◌, ◌==◌, ◌≤◌, length};
ghost use Rattle.std.specs.List.{find, list_any};
ghost use Rattle.std.specs.Option.{option_map};
ghost use Rattle.trace_model.specs.Lines.{output_line};
ghost use Rattle.trace_model.specs.LinesBefore.{by_location};
ghost use Rattle.trace_model.specs.PartCauses.{lacks_binding};
ghost use Rattle.trace_text.specs.LibraryLines as lines;
ghost use Rattle.trace_text.specs.Taking.{Takes, before_of, settled, repeat_locations};

use crate::library_lines::{FragmentLine, Located, PrerastLine, VertexLine};
use crate::made::Made;
use crate::module_parts::is_bad_shader;
use crate::places::entries_of;
use limits::{LOCATIONS, VERTEX_BINDINGS};
use spv_check::Stage;
use state_model::{Attribute, FragmentPart, OutputPart, PrerastPart, VertexBinding, VertexPart};
use trace_model::limit::LIBRARIES;
use trace_model::line_fault::Cause;
use trace_model::whole::Library;

impl Made {
    pub fn add_vertex(&mut self, line: &VertexLine) -> Result<(), Cause>
        ensures { Takes result (before_of self.new)
            (settled (before_of self.old) (lines.vertex_line_of line.now)) }
    {
        if self.libs.is_full(LIBRARIES) {
            return Err(Cause::TooMany);
        }
        let attributes = line.attributes.as_slice();
        if repeat_locations(attributes) {
            return Err(Cause::BadPart);
        }
        if lack_bindings(&line.bindings, attributes) {
            return Err(Cause::BadPart);
        }
        self.libs.push(Library::Vertex(VertexPart {
            retain: line.retain,
            topology: line.topology,
            bindings: line.bindings,
            attributes: by_location(attributes),
        }))?;
        Ok(())
    }

    pub fn add_prerast(&mut self, line: &PrerastLine<'_>) -> Result<(), Cause>
        requires { length line.now.entries ≤ 16 }
        ensures { Takes result (before_of self.new)
            (settled (before_of self.old) (lines.prerast_line_of line.now)) }
    {
        if self.libs.is_full(LIBRARIES) {
            return Err(Cause::TooMany);
        }
        let Some(module) = line.module.within(self.modules.len()) else {
            return Err(Cause::Unknown);
        };
        let Some(layout) = line.layout.within(self.layouts.len()) else {
            return Err(Cause::Unknown);
        };
        let layout = *self.layouts.at(layout);
        let entries = line.entries.as_slice();
        if is_bad_shader(Stage::Vertex, self.modules.at(module), &layout, entries) {
            return Err(Cause::BadPart);
        }
        self.libs.push(Library::Prerast(PrerastPart {
            retain: line.retain,
            module: u32::from(module),
            layout,
            view_mask: line.view_mask,
            discard: line.discard,
            cull: line.cull,
            ccw: line.ccw,
            entries: entries_of(entries),
        }))?;
        Ok(())
    }

    pub fn add_fragment(&mut self, line: &FragmentLine<'_>) -> Result<(), Cause>
        requires { length line.now.entries ≤ 16 }
        ensures { Takes result (before_of self.new)
            (settled (before_of self.old) (lines.fragment_line_of line.now)) }
    {
        if self.libs.is_full(LIBRARIES) {
            return Err(Cause::TooMany);
        }
        let Some(module) = line.module.within(self.modules.len()) else {
            return Err(Cause::Unknown);
        };
        let Some(layout) = line.layout.within(self.layouts.len()) else {
            return Err(Cause::Unknown);
        };
        let layout = *self.layouts.at(layout);
        let entries = line.entries.as_slice();
        if is_bad_shader(Stage::Fragment, self.modules.at(module), &layout, entries) {
            return Err(Cause::BadPart);
        }
        self.libs.push(Library::Fragment(FragmentPart {
            retain: line.retain,
            module: u32::from(module),
            layout,
            view_mask: line.view_mask,
            depth: line.depth,
            multisample: line.multisample,
            entries: entries_of(entries),
        }))?;
        Ok(())
    }

    pub fn add_output(&mut self, part: OutputPart) -> Result<(), Cause>
        ensures { Takes result (before_of self.new)
            (settled (before_of self.old) (output_line part)) }
    {
        if self.libs.is_full(LIBRARIES) {
            return Err(Cause::TooMany);
        }
        self.libs.push(Library::Output(part))?;
        Ok(())
    }
}

/// Whether two of at most eight attributes have one location.
#[tactic(auto, using(crate::proofs::Locations::locations_among))]
fn repeat_locations(attributes: &[Located]) -> bool
    ensures { result ≡ repeat_locations attributes.now }
{
    let mut rest = attributes;
    while let Some((first, others)) = rest.split_first() {
        if has_location(others, first.location()) {
            return true;
        }
        rest = others;
    }
    false
}

fn has_location(attributes: &[Located], location: u8) -> bool
    ensures { result ≡ list_any (λ a. a.location == location) attributes.now }
{
    attributes.iter().any(|a| a.location() == location)
}

/// Whether the binding of an attribute isn't there.
fn lack_bindings(
    bindings: &[Option<VertexBinding>; VERTEX_BINDINGS],
    attributes: &[Located],
) -> bool
    ensures { result ≡ list_any (lacks_binding bindings.now) attributes.now }
{
    attributes
        .iter()
        .any(|a| lacks_binding(bindings, a.attribute()))
}

fn lacks_binding(bindings: &[Option<VertexBinding>], attribute: Attribute) -> bool
    ensures { result ≡ lines.lacks_binding bindings.now attribute }
{
    bindings
        .get(usize::from(attribute.binding))
        .copied()
        .flatten()
        .is_none()
}

/// At most eight attributes by location.
fn by_location(attributes: &[Located]) -> [Option<Attribute>; LOCATIONS]
    ensures { result ≡ by_location attributes.now }
{
    let mut places = [None; LOCATIONS];
    for i in 0..LOCATIONS {
        places[i] = attribute_at(attributes, i);
    }
    places
}

/// The first attribute at a location.
fn attribute_at(attributes: &[Located], location: usize) -> Option<Attribute>
    ensures { result ≡ lines.attribute_at attributes.now location }
{
    for a in attributes {
        if usize::from(a.location()) == location {
            return Some(a.attribute());
        }
    }
    None
}
