ghost use Rattle.std.specs.Prelude.{◌≡◌, ◌≢◌, ◌≤◌, ◌↔◌, map, IsSome, IsNone, IfOk, IfSome, string_bytes};
ghost use Rattle.std.specs.Io.KnownBytes.{IsAtEnd, Keeps};
ghost use Rattle.basics.specs.Count.{Rose};
ghost use Rattle.trace_model.specs.LawfulPlay.{LawfulTrace};
ghost use Rattle.trace_model.specs.Reading.{HasTraceFault};
ghost use Rattle.gpl_play.specs.Reads.{ReadsSome};
ghost use Rattle.gpl_play.specs.Runs.{IsStill, IsStillText, still_text, NoFault, WritesDue, WritesDueFront, IsNoTrace, IsRefusedIfNoTrace, IsPlayedIfTrace};

use crate::call::{StillCall, still_call};
use crate::ending::{ended, stopped, told};
use crate::links::rules_of_pipes;
use crate::outcome::Outcome;
use crate::status::{DONE, NO_MEMORY, READ_FAILED, REFUSED, USAGE, WRITE_FAILED};
use crate::take::take_trace;
use gpl_edge::{Sink, Source};
use std::alloc::{AllocError, Global};
use trace_text::{Trace, check_text, links_text};

/// Reads a trace, and writes what its modules are (`check`), or which of its pipes link (`links`). `words` are the program's
/// words without its name. No other thread takes part. The first of these events ends the call: other words, a failed read,
/// bytes that are no trace, a failed write. Want of memory may come at each but words and writing.
///
/// Where the source doesn't tell what it has left, or the sink what it holds, nothing is said of their bytes.
pub fn run_still<S: Source, K: Sink>(
    alloc: Global,
    words: &Vec<String>,
    source: &mut S,
    sink: &mut K,
) -> Outcome
    ensures statuses { result.status ≤ NO_MEMORY }
    ensures report { IsNone result.report }

    // All text was written, and nothing else: what the call prints of the trace.
    ensures done { result.status ≡ DONE
        → WritesDue (IsStillText (map string_bytes words.now.items))
        (S.left source.old) (K.held sink.old) (K.held sink.new) }
    ensures read { result.status ≡ DONE → IsAtEnd (S.left source.new) }

    ensures usage { (result.status ≡ USAGE)
        ↔ (IsStill (map string_bytes words.now.items) → ⊥) }
    ensures unread { result.status ≡ USAGE → Keeps (S.left source.old) (S.left source.new) }

    // Bytes that are no trace: exactly at them, where no read failed, with the first faulty line and the first cause on it.
    ensures refused { result.status ≡ REFUSED → IsNoTrace (S.left source.old) }
    ensures refused_read { result.status ≡ REFUSED
        → ReadsSome (S.left source.old) (S.left source.new) }
    ensures refuses { IsStill (map string_bytes words.now.items)
        → NoFault (S.faults source.old) (S.faults source.new)
        → IfSome (S.left source.old) (IsRefusedIfNoTrace result.status) }
    ensures fault { IsSome result.fault ↔ (result.status ≡ REFUSED) }
    ensures fault_line { IfSome result.fault
        (λ fault. IfSome (S.left source.old) (λ bytes. HasTraceFault bytes fault)) }

    ensures read_failed { result.status ≡ READ_FAILED
        → Rose (S.faults source.old) (S.faults source.new) }
    ensures reads_counted { result.status ≢ READ_FAILED
        → S.faults source.new ≡ S.faults source.old }

    ensures write_failed { result.status ≡ WRITE_FAILED
        → Rose (K.faults sink.old) (K.faults sink.new) }
    ensures front { result.status ≡ WRITE_FAILED
        → WritesDueFront (IsStillText (map string_bytes words.now.items))
        (S.left source.old) (K.held sink.old) (K.held sink.new) }
    ensures front_read { result.status ≡ WRITE_FAILED → IsAtEnd (S.left source.new) }
    ensures writes_counted { result.status ≢ WRITE_FAILED
        → K.faults sink.new ≡ K.faults sink.old }

    // Nothing was written.
    ensures unwritten { result.status ≢ DONE → result.status ≢ WRITE_FAILED
        → Keeps (K.held sink.old) (K.held sink.new) }

    // Nothing else keeps a call from its end but want of memory.
    ensures complete { IsStill (map string_bytes words.now.items)
        → NoFault (S.faults source.old) (S.faults source.new)
        → NoFault (K.faults sink.old) (K.faults sink.new)
        → IfSome (S.left source.old) (IsPlayedIfTrace result.status) }
{
    let Some(call) = still_call(words) else {
        return ended(USAGE);
    };
    match take_trace(alloc, source) {
        Ok(trace) => match text_of(alloc, call, &trace) {
            Ok(text) => ended(told(sink, text.as_slice())),
            Err(_) => ended(NO_MEMORY),
        },
        Err(stop) => stopped(stop),
    }
}

/// The text that a call prints of a trace.
fn text_of(alloc: Global, call: StillCall, trace: &Trace) -> Result<Vec<u8>, AllocError>
    requires { LawfulTrace trace.now }
    ensures { IfOk result (λ text. text.items ≡ still_text call trace.now) }
{
    let modules = trace.modules.as_slice();
    match call {
        StillCall::Check => check_text(alloc, modules),
        StillCall::Links => {
            let (libs, pipes) = (trace.libs.as_slice(), trace.pipes.as_slice());
            let rules = rules_of_pipes(alloc, modules, libs, pipes)?;
            links_text(alloc, rules.as_slice())
        }
    }
}
