ghost use Rattle.std.specs.Prelude.{◌≡◌, ◌≢◌, ◌≤◌, ◌↔◌, map, IsSome, IsNone, IfOk, IfErr, IfSome, string_bytes};
ghost use Rattle.std.specs.Io.KnownBytes.{IsAtEnd, Keeps};
ghost use Rattle.basics.specs.Count.{Rose};
ghost use Rattle.gpl_play.specs.Reads.{ReadsSome};
ghost use Rattle.gpl_play.specs.Runs.{NoFault, WritesDue, WritesDueFront, IsFaulty, IsRefusedIfFaulty, IsDoneIfSound};
ghost use Rattle.gpl_play.specs.Takes.{HasFailed, Stops, stop_fault, stop_status};
ghost use Rattle.gpl_play.specs.TextRuns.{IsText, IsTextFor, HasFaultFor, IsSoundFor, HasTextFault, TakesText, run_fault_line};
ghost use Rattle.gpl_play.specs.declared.call.TextCall.TheVariants.{Listings, Assembly};

use crate::call::{TextCall, text_call};
use crate::ending::told;
use crate::listings::modules_text;
use crate::status::{DONE, NO_MEMORY, READ_FAILED, REFUSED, USAGE, WRITE_FAILED};
use crate::take::{Stop, take_trace, take_words};
use gpl_edge::{Sink, Source};
use spv_text::TextFault;
use std::alloc::{AllocError, Global};
use thiserror::Error;
use trace_model::line_fault::TraceFault;
use trace_text::code_text;

/// How a call between modules and text ended.
#[derive(Debug, Drop)]
pub struct TextOutcome {
    /// One of the constants of `status`.
    pub status: u8,
    /// What is wrong with the bytes; it is there exactly at `status::REFUSED`.
    pub fault: Option<TextRunFault>,
}

/// Why bytes are no trace, or no listing: the first faulty line, and the first cause on it.
#[derive(Clone, Copy, Debug, Drop, PartialEq, Eq, Error)]
pub enum TextRunFault {
    /// They are no trace.
    #[error("line {}: {}", .0.line, .0.cause)]
    Trace(TraceFault),
    /// They are no listing.
    #[error("line {}: {}", .0.line, .0.cause)]
    Text(TextFault),
}

/// The line on standard error for bytes that are no trace, or no listing.
pub fn text_fault_line(alloc: Global, fault: &TextRunFault) -> Result<Vec<u8>, AllocError>
    ensures { IfOk result (λ line. line.items ≡ run_fault_line fault.now) }
{
    match fault {
        TextRunFault::Trace(fault) => trace_text::fault_line(alloc, fault),
        TextRunFault::Text(fault) => spv_text::fault_line(alloc, fault),
    }
}

/// Reads a trace, and writes the listings of its modules (`text`), or reads a listing, and writes the words that it is
/// assembled to as a line of a trace (`assemble`). `words` are the program's words without its name. No other thread
/// takes part. The first of these events ends the call: other words, a failed read, bytes that are no trace or no listing,
/// a failed write. Want of memory may come at each but words and writing.
///
/// Where the source doesn't tell what it has left, or the sink what it holds, nothing is said of their bytes.
pub fn text_run<S: Source, K: Sink>(
    alloc: Global,
    words: &Vec<String>,
    source: &mut S,
    sink: &mut K,
) -> TextOutcome
    ensures statuses { result.status ≤ NO_MEMORY }

    // All text was written, and nothing else.
    ensures done { result.status ≡ DONE
        → WritesDue (IsTextFor (map string_bytes words.now.items))
        (S.left source.old) (K.held sink.old) (K.held sink.new) }
    ensures read { result.status ≡ DONE → IsAtEnd (S.left source.new) }

    ensures usage { (result.status ≡ USAGE)
        ↔ (IsText (map string_bytes words.now.items) → ⊥) }
    ensures unread { result.status ≡ USAGE → Keeps (S.left source.old) (S.left source.new) }

    // Bytes that are no trace, or no listing: exactly at them, where no read failed, with the first faulty line and the first
    // cause on it.
    ensures refused { result.status ≡ REFUSED
        → IsFaulty (HasFaultFor (map string_bytes words.now.items)) (S.left source.old) }
    ensures refused_read { result.status ≡ REFUSED
        → ReadsSome (S.left source.old) (S.left source.new) }
    ensures refuses { NoFault (S.faults source.old) (S.faults source.new)
        → IfSome (S.left source.old)
        (IsRefusedIfFaulty (HasFaultFor (map string_bytes words.now.items)) result.status) }
    ensures fault { IsSome result.fault ↔ (result.status ≡ REFUSED) }
    ensures fault_line { IfSome result.fault (λ fault. IfSome (S.left source.old)
        (λ bytes. HasFaultFor (map string_bytes words.now.items) bytes fault)) }

    ensures read_failed { result.status ≡ READ_FAILED
        → Rose (S.faults source.old) (S.faults source.new) }
    ensures reads_counted { result.status ≢ READ_FAILED
        → S.faults source.new ≡ S.faults source.old }

    ensures write_failed { result.status ≡ WRITE_FAILED
        → Rose (K.faults sink.old) (K.faults sink.new) }
    ensures front { result.status ≡ WRITE_FAILED
        → WritesDueFront (IsTextFor (map string_bytes words.now.items))
        (S.left source.old) (K.held sink.old) (K.held sink.new) }
    ensures front_read { result.status ≡ WRITE_FAILED → IsAtEnd (S.left source.new) }
    ensures writes_counted { result.status ≢ WRITE_FAILED
        → K.faults sink.new ≡ K.faults sink.old }

    // Nothing was written.
    ensures unwritten { result.status ≢ DONE → result.status ≢ WRITE_FAILED
        → Keeps (K.held sink.old) (K.held sink.new) }

    // Nothing else keeps a call from its end but want of memory.
    ensures complete { NoFault (S.faults source.old) (S.faults source.new)
        → NoFault (K.faults sink.old) (K.faults sink.new)
        → IfSome (S.left source.old)
        (IsDoneIfSound (IsSoundFor (map string_bytes words.now.items)) result.status) }
{
    let Some(call) = text_call(words) else {
        return ended(USAGE);
    };
    match text_of(alloc, call, source) {
        Ok(text) => ended(told(sink, text.as_slice())),
        Err(stop) => stopped(stop),
    }
}

/// The text that a call gives for a source's bytes.
fn text_of<S: Source>(
    alloc: Global,
    call: TextCall,
    source: &mut S,
) -> Result<Vec<u8>, Stop<TextRunFault>>
    ensures text { IfOk result
        (λ text. TakesText call (S.left source.old) (S.left source.new) text.items) }
    ensures stop { IfErr result
        (Stops (HasTextFault call) (S.left source.old) (S.left source.new)) }
    ensures failed { HasFailed result → Rose (S.faults source.old) (S.faults source.new) }
    ensures unraised { (HasFailed result → ⊥) → S.faults source.new ≡ S.faults source.old }
{
    match call {
        TextCall::Listings => listings_of(alloc, source),
        TextCall::Assembly => code_of(alloc, source),
    }
}

/// The listings of the modules of a source's trace.
fn listings_of<S: Source>(alloc: Global, source: &mut S) -> Result<Vec<u8>, Stop<TextRunFault>>
    ensures text { IfOk result
        (λ text. TakesText Listings (S.left source.old) (S.left source.new) text.items) }
    ensures stop { IfErr result
        (Stops (HasTextFault Listings) (S.left source.old) (S.left source.new)) }
    ensures failed { HasFailed result → Rose (S.faults source.old) (S.faults source.new) }
    ensures unraised { (HasFailed result → ⊥) → S.faults source.new ≡ S.faults source.old }
{
    match take_trace(alloc, source) {
        Ok(trace) => match modules_text(alloc, trace.modules.as_slice()) {
            Ok(text) => Ok(text),
            Err(_) => Err(Stop::Memory),
        },
        Err(Stop::Failed) => Err(Stop::Failed),
        Err(Stop::Memory) => Err(Stop::Memory),
        Err(Stop::Refused(fault)) => Err(Stop::Refused(TextRunFault::Trace(fault))),
    }
}

/// The line of a trace with the words that a source's listing is assembled to.
fn code_of<S: Source>(alloc: Global, source: &mut S) -> Result<Vec<u8>, Stop<TextRunFault>>
    ensures text { IfOk result
        (λ text. TakesText Assembly (S.left source.old) (S.left source.new) text.items) }
    ensures stop { IfErr result
        (Stops (HasTextFault Assembly) (S.left source.old) (S.left source.new)) }
    ensures failed { HasFailed result → Rose (S.faults source.old) (S.faults source.new) }
    ensures unraised { (HasFailed result → ⊥) → S.faults source.new ≡ S.faults source.old }
{
    match take_words(alloc, source) {
        Ok(words) => match code_text(alloc, words.as_slice()) {
            Ok(text) => Ok(text),
            Err(_) => Err(Stop::Memory),
        },
        Err(Stop::Failed) => Err(Stop::Failed),
        Err(Stop::Memory) => Err(Stop::Memory),
        Err(Stop::Refused(fault)) => Err(Stop::Refused(TextRunFault::Text(fault))),
    }
}

/// The end with this status alone.
fn ended(status: u8) -> TextOutcome
    ensures status { result.status ≡ status }
    ensures fault { IsNone result.fault }
{
    TextOutcome {
        status,
        fault: None,
    }
}

/// The end where there is no text.
fn stopped(stop: Stop<TextRunFault>) -> TextOutcome
    ensures status { result.status ≡ stop_status stop }
    ensures fault { result.fault ≡ stop_fault stop }
{
    match stop {
        Stop::Failed => ended(READ_FAILED),
        Stop::Memory => ended(NO_MEMORY),
        Stop::Refused(fault) => TextOutcome {
            status: REFUSED,
            fault: Some(fault),
        },
    }
}
