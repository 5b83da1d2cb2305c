//! Taking a line: what it says, and then its causes and what it adds.
ghost use Rattle.std.specs.Prelude.{◌≡◌};
ghost use Rattle.trace_model.proofs.ReadingLaws.{verdict_of};
ghost use Rattle.trace_model.specs.LibraryLines as library;
ghost use Rattle.trace_model.specs.LineForms.{line_of_fields};
ghost use Rattle.trace_model.specs.Reading.{line_gives};
ghost use Rattle.trace_model.specs.RecorderLines as recorder;
ghost use Rattle.trace_model.specs.SetupLines as setup;
ghost use Rattle.trace_text.specs.LineKinds.{form_of};
ghost use Rattle.trace_text.specs.Taking.{Takes, before_of, given_by};

use crate::field_cursor::FieldCursor;
use crate::library_lines::{fragment_form, output_form, prerast_form, vertex_form};
use crate::line_kind::{LineKind, kind_of};
use crate::made::Made;
use crate::recorder_lines::{bind_form, draw_form, push_form, scissor_form, ubuf_form, vbuf_form};
use crate::setup_lines::{code_form, data_form, layout_form, pipe_form, target_form};
use std::alloc::Global;
use trace_model::line_fault::Cause;
use trace_model::whole::Version;

impl Made {
    /// Takes a line of a version.
    pub fn take_line(&mut self, alloc: Global, version: Version, line: &[u8]) -> Result<(), Cause>
        ensures { Takes result (before_of self.new)
            (line_gives verdict_of version (before_of self.old) line.now) }
    {
        let mut fields = FieldCursor::new(line, b' ');
        self.take_fields(alloc, version, &mut fields)
    }

    fn take_fields(
        &mut self,
        alloc: Global,
        version: Version,
        fields: &mut FieldCursor<'_>,
    ) -> Result<(), Cause>
        ensures { Takes result (before_of self.new)
            (given_by (before_of self.old) (line_of_fields version fields.old)) }
    {
        let Some(word) = fields.next_part() else {
            return Err(Cause::BadLine);
        };
        let Some(kind) = kind_of(word) else {
            return Err(Cause::BadLine);
        };
        self.take_kind(alloc, version, kind, fields)
    }

    fn take_kind(
        &mut self,
        alloc: Global,
        version: Version,
        kind: LineKind,
        fields: &mut FieldCursor<'_>,
    ) -> Result<(), Cause>
        ensures { Takes result (before_of self.new)
            (given_by (before_of self.old) ((form_of kind).form version fields.old)) }
    {
        match kind {
            LineKind::Data => self.take_data(alloc, fields),
            LineKind::Code => self.take_code(alloc, fields),
            LineKind::Layout => self.take_layout(alloc, fields),
            LineKind::Vertex => self.take_vertex(alloc, fields),
            LineKind::Prerast => self.take_prerast(alloc, version, fields),
            LineKind::Fragment => self.take_fragment(alloc, version, fields),
            LineKind::Output => self.take_output(alloc, version, fields),
            LineKind::Pipe => self.take_pipe(alloc, fields),
            LineKind::Target => self.take_target(alloc, fields),
            LineKind::Push => self.take_push(alloc, fields),
            LineKind::Vbuf => self.take_vbuf(fields),
            LineKind::Ubuf => self.take_ubuf(fields),
            LineKind::Scissor => self.take_scissor(fields),
            LineKind::Bind => self.take_bind(alloc, version, fields),
            LineKind::Draw => self.take_draw(fields),
        }
    }

    fn take_data(&mut self, alloc: Global, fields: &mut FieldCursor<'_>) -> Result<(), Cause>
        ensures { Takes result (before_of self.new)
            (given_by (before_of self.old) (setup.data_form fields.old)) }
    {
        let words = data_form(alloc, fields)?;
        self.add_buffer(words)
    }

    fn take_code(&mut self, alloc: Global, fields: &mut FieldCursor<'_>) -> Result<(), Cause>
        ensures { Takes result (before_of self.new)
            (given_by (before_of self.old) (setup.code_form fields.old)) }
    {
        let words = code_form(alloc, fields)?;
        self.add_module(alloc, words.as_slice())
    }

    fn take_layout(&mut self, alloc: Global, fields: &mut FieldCursor<'_>) -> Result<(), Cause>
        ensures { Takes result (before_of self.new)
            (given_by (before_of self.old) (setup.layout_form fields.old)) }
    {
        let layout = layout_form(alloc, fields)?;
        self.add_layout(layout)
    }

    fn take_vertex(&mut self, alloc: Global, fields: &mut FieldCursor<'_>) -> Result<(), Cause>
        ensures { Takes result (before_of self.new)
            (given_by (before_of self.old) (library.vertex_form fields.old)) }
    {
        let line = vertex_form(alloc, fields)?;
        self.add_vertex(&line)
    }

    fn take_prerast(
        &mut self,
        alloc: Global,
        version: Version,
        fields: &mut FieldCursor<'_>,
    ) -> Result<(), Cause>
        ensures { Takes result (before_of self.new)
            (given_by (before_of self.old) (library.prerast_form version fields.old)) }
    {
        let line = prerast_form(alloc, version, fields)?;
        self.add_prerast(&line)
    }

    fn take_fragment(
        &mut self,
        alloc: Global,
        version: Version,
        fields: &mut FieldCursor<'_>,
    ) -> Result<(), Cause>
        ensures { Takes result (before_of self.new)
            (given_by (before_of self.old) (library.fragment_form version fields.old)) }
    {
        let line = fragment_form(alloc, version, fields)?;
        self.add_fragment(&line)
    }

    fn take_output(
        &mut self,
        alloc: Global,
        version: Version,
        fields: &mut FieldCursor<'_>,
    ) -> Result<(), Cause>
        ensures { Takes result (before_of self.new)
            (given_by (before_of self.old) (library.output_form version fields.old)) }
    {
        let part = output_form(alloc, version, fields)?;
        self.add_output(part)
    }

    fn take_pipe(&mut self, alloc: Global, fields: &mut FieldCursor<'_>) -> Result<(), Cause>
        ensures { Takes result (before_of self.new)
            (given_by (before_of self.old) (setup.pipe_form fields.old)) }
    {
        let numbers = pipe_form(alloc, fields)?;
        self.add_pipe(alloc, numbers.as_slice())
    }

    fn take_target(&mut self, alloc: Global, fields: &mut FieldCursor<'_>) -> Result<(), Cause>
        ensures { Takes result (before_of self.new)
            (given_by (before_of self.old) (setup.target_form fields.old)) }
    {
        let Some(line) = target_form(fields) else {
            return Err(Cause::BadLine);
        };
        self.add_target(alloc, &line)
    }

    fn take_push(&mut self, alloc: Global, fields: &mut FieldCursor<'_>) -> Result<(), Cause>
        ensures { Takes result (before_of self.new)
            (given_by (before_of self.old) (recorder.push_form fields.old)) }
    {
        let line = push_form(alloc, fields)?;
        self.add_push(line)
    }

    fn take_vbuf(&mut self, fields: &mut FieldCursor<'_>) -> Result<(), Cause>
        ensures { Takes result (before_of self.new)
            (given_by (before_of self.old) (recorder.vbuf_form fields.old)) }
    {
        let Some(line) = vbuf_form(fields) else {
            return Err(Cause::BadLine);
        };
        self.add_vbuf(&line)
    }

    fn take_ubuf(&mut self, fields: &mut FieldCursor<'_>) -> Result<(), Cause>
        ensures { Takes result (before_of self.new)
            (given_by (before_of self.old) (recorder.ubuf_form fields.old)) }
    {
        let Some(line) = ubuf_form(fields) else {
            return Err(Cause::BadLine);
        };
        self.add_ubuf(&line)
    }

    fn take_scissor(&mut self, fields: &mut FieldCursor<'_>) -> Result<(), Cause>
        ensures { Takes result (before_of self.new)
            (given_by (before_of self.old) (recorder.scissor_form fields.old)) }
    {
        let Some(line) = scissor_form(fields) else {
            return Err(Cause::BadLine);
        };
        self.add_scissor(&line)
    }

    fn take_bind(
        &mut self,
        alloc: Global,
        version: Version,
        fields: &mut FieldCursor<'_>,
    ) -> Result<(), Cause>
        ensures { Takes result (before_of self.new)
            (given_by (before_of self.old) (recorder.bind_form version fields.old)) }
    {
        let line = bind_form(alloc, version, fields)?;
        self.add_bind(alloc, version, &line)
    }

    fn take_draw(&mut self, fields: &mut FieldCursor<'_>) -> Result<(), Cause>
        ensures { Takes result (before_of self.new)
            (given_by (before_of self.old) (recorder.draw_form fields.old)) }
    {
        let Some(line) = draw_form(fields) else {
            return Err(Cause::BadLine);
        };
        self.add_draw(&line)
    }
}
