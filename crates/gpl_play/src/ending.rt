//! The ends of a call.
ghost use Rattle.std.specs.Prelude.{◌≡◌, ◌⊎◌, Some, IsNone};
ghost use Rattle.std.specs.Io.KnownBytes.{Appends};
ghost use Rattle.basics.specs.Count.{Rose};
ghost use Rattle.gpl_play.specs.Takes.{stop_status, stop_fault};
ghost use Rattle.gpl_play.specs.Writes.{WritesFront};

use crate::outcome::Outcome;
use crate::status::{DONE, NO_MEMORY, READ_FAILED, REFUSED, WRITE_FAILED};
use crate::take::Stop;
use crate::write::write_all;
use gpl_edge::Sink;
use trace_model::line_fault::TraceFault;

/// The end with this status alone.
pub fn ended(status: u8) -> Outcome
    ensures status { result.status ≡ status }
    ensures fault { IsNone result.fault }
    ensures report { IsNone result.report }
{
    Outcome {
        status,
        fault: None,
        report: None,
    }
}

/// The end at bytes that are no trace.
fn refused(fault: TraceFault) -> Outcome
    ensures status { result.status ≡ REFUSED }
    ensures fault { result.fault ≡ Some fault }
    ensures report { IsNone result.report }
{
    Outcome {
        status: REFUSED,
        fault: Some(fault),
        report: None,
    }
}

/// The end where no trace was taken.
pub fn stopped(stop: Stop<TraceFault>) -> Outcome
    ensures status { result.status ≡ stop_status stop }
    ensures fault { result.fault ≡ stop_fault stop }
    ensures report { IsNone result.report }
{
    match stop {
        Stop::Failed => ended(READ_FAILED),
        Stop::Memory => ended(NO_MEMORY),
        Stop::Refused(fault) => refused(fault),
    }
}

/// The status of a call that ends with this text.
pub fn told<K: Sink>(sink: &mut K, text: &[u8]) -> u8
    ensures statuses { (result ≡ DONE) ⊎ (result ≡ WRITE_FAILED) }
    ensures done { result ≡ DONE → Appends (K.held sink.old) (K.held sink.new) text.now }
    ensures unraised { result ≡ DONE → K.faults sink.new ≡ K.faults sink.old }
    ensures front { result ≡ WRITE_FAILED
        → WritesFront (K.held sink.old) (K.held sink.new) text.now }
    ensures failed { result ≡ WRITE_FAILED → Rose (K.faults sink.old) (K.faults sink.new) }
{
    match write_all(sink, text) {
        Ok(()) => DONE,
        Err(_) => WRITE_FAILED,
    }
}
