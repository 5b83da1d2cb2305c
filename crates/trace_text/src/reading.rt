//! The reader of whole traces.
ghost use Rattle.std.specs.Prelude.{◌≡◌, ◌≤◌, length, Ok, Err};
ghost use Rattle.basics.specs.Answer.{IsAnswer, UnlessMemory};
ghost use Rattle.trace_model.proofs.ReadingLaws.{verdict_of};
ghost use Rattle.trace_model.specs.declared.line_fault.TraceFault as declared;
ghost use Rattle.trace_model.specs.declared.whole.Trace as trace;
ghost use Rattle.trace_model.specs.LineForms.{version_of};
ghost use Rattle.trace_model.specs.Reading.{IsTraceOf, HasTraceFault, body_gives, fault_at, reading, texts_give};
ghost use Rattle.trace_text.specs.Readings.{HasFault, is_memory, is_want, read_fault, IsOnly, IsExactly};
ghost use Rattle.trace_text.specs.Taking.{before_of};

use crate::field_cursor::FieldCursor;
use crate::made::Made;
use crate::whole::Trace;
use limits::TRACE_BYTES;
use state_model::Buffers;
use std::alloc::Global;
use thiserror::Error;
use trace_model::line_fault::{Cause, TraceFault};
use trace_model::whole::Version;

/// Why bytes give no trace.
#[derive(Clone, Copy, Debug, Drop, PartialEq, Eq, Error)]
pub enum ReadFault {
    /// They are none: the first faulty line and the first cause on it.
    #[error("line {}: {}", .0.line, .0.cause)]
    Fault(TraceFault),
    /// Memory ran out.
    #[error("memory")]
    Memory,
}

/// The trace of these bytes, of version 1 or 2. Bytes that are none are refused with the first faulty line and the first
/// cause on it.
pub fn read_trace(alloc: Global, bytes: &[u8]) -> Result<Trace, ReadFault>
    ensures fault { UnlessMemory is_want (IsTraceOf bytes.now) (HasFault bytes.now) result }
    ensures exact { (trace : trace.Trace) → IsTraceOf bytes.now trace → IsExactly trace result }
    ensures only { (fault : declared.TraceFault) → HasTraceFault bytes.now fault
        → IsOnly fault result }
{
    match trace_of(alloc, bytes) {
        Ok(trace) => Ok(trace),
        Err(fault) => Err(read_fault(fault)),
    }
}

fn read_fault(fault: TraceFault) -> ReadFault
    ensures { result ≡ read_fault fault }
{
    match fault.cause {
        Cause::Memory => ReadFault::Memory,
        _ => ReadFault::Fault(fault),
    }
}

#[tactic(auto, unfolding(trace_model::specs::Reading::reading))]
fn trace_of(alloc: Global, bytes: &[u8]) -> Result<Trace, TraceFault>
    ensures { IsAnswer is_memory (reading verdict_of bytes.now) result }
{
    if bytes.len() > TRACE_BYTES {
        return Err(fault_at(0, Cause::TooLong));
    }
    let mut lines = FieldCursor::new(bytes, b'\n');
    trace_of_texts(alloc, &mut lines)
}

fn fault_at(line: u32, cause: Cause) -> TraceFault
    ensures { result ≡ fault_at line cause }
{
    TraceFault { line, cause }
}

fn trace_of_texts(alloc: Global, lines: &mut FieldCursor<'_>) -> Result<Trace, TraceFault>
    requires { length lines.old ≤ 16777217 }
    ensures { IsAnswer is_memory (texts_give verdict_of lines.old) result }
{
    let Some(first) = lines.next_part() else {
        return Err(fault_at(1, Cause::NoHeader));
    };
    match version_of(first) {
        Some(version) => trace_of_lines(alloc, version, lines),
        None => Err(fault_at(1, Cause::NoHeader)),
    }
}

#[tactic(auto, unfolding(trace_model::specs::LineForms::version_of))]
fn version_of(line: &[u8]) -> Option<Version>
    ensures { result ≡ version_of line.now }
{
    if line == b"gplt 1".as_slice() {
        return Some(Version::First);
    }
    if line == b"gplt 2".as_slice() {
        return Some(Version::Second);
    }
    None
}

/// The trace of the lines after the first.
fn trace_of_lines(
    alloc: Global,
    version: Version,
    lines: &mut FieldCursor<'_>,
) -> Result<Trace, TraceFault>
    requires { length lines.old ≤ 16777217 }
    ensures { IsAnswer is_memory (body_gives verdict_of version lines.old) result }
{
    let Some(first) = lines.next_part() else {
        return Err(fault_at(1, Cause::BadLine));
    };
    let mut made = Made::new(alloc);
    let mut line = first;
    let mut number = 2;
    while let Some(next) = lines.next_part() {
        if let Err(cause) = made.take_line(alloc, version, line) {
            return Err(fault_at(number, cause));
        }
        line = next;
        number += 1;
    }
    if !line.is_empty() {
        return Err(fault_at(number, Cause::BadLine));
    }
    Ok(made.into_trace())
}

impl Made {
    /// The trace that the lines have made.
    fn into_trace(self) -> Trace
        ensures { result ≡ (before_of self).trace }
    {
        let Made {
            modules,
            buffers,
            libs,
            pipes,
            targets,
            steps,
            ..
        } = self;
        Trace {
            modules: modules.into_items(),
            buffers: Buffers {
                list: buffers.into_items(),
            },
            libs: libs.into_items(),
            pipes: pipes.into_items(),
            targets: targets.into_items(),
            steps: steps.into_items(),
        }
    }
}
