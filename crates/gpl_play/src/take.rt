//! What a source's bytes are: a trace, or a listing.
ghost use Rattle.std.specs.Prelude.{◌≡◌, IfOk, IfErr};
ghost use Rattle.std.specs.Io.KnownBytes.{IsAtEnd};
ghost use Rattle.basics.specs.Count.{Rose};
ghost use Rattle.gpl_play.specs.Takes.{Takes, TakesWords, Stops, HasFailed, listing_stop};
ghost use Rattle.trace_model.specs.Reading.{HasTraceFault};
ghost use Rattle.gpl_play.specs.Listings.{HasListingFault};

use crate::read::{ReadStop, read_all};
use gpl_edge::Source;
use spv_text::{TextCause, TextFault, assemble};
use std::alloc::Global;
use trace_model::line_fault::TraceFault;
use trace_text::{ReadFault, Trace, read_trace};

/// Why nothing was taken.
#[derive(Drop)]
pub enum Stop<F> {
    /// A read failed.
    Failed,
    /// Memory ran out.
    Memory,
    /// The bytes have this fault.
    Refused(F),
}

/// The trace of a source's bytes, read to their end.
pub fn take_trace<S: Source>(alloc: Global, source: &mut S) -> Result<Trace, Stop<TraceFault>>
    ensures trace { IfOk result (Takes (S.left source.old) (S.left source.new)) }
    ensures stop { IfErr result (Stops HasTraceFault (S.left source.old) (S.left source.new)) }
    ensures failed { HasFailed result → Rose (S.faults source.old) (S.faults source.new) }
    ensures unraised { (HasFailed result → ⊥) → S.faults source.new ≡ S.faults source.old }
{
    let bytes = match read_all(alloc, source) {
        Ok(bytes) => bytes,
        Err(ReadStop::Failed) => return Err(Stop::Failed),
        Err(ReadStop::Memory) => return Err(Stop::Memory),
    };
    match read_trace(alloc, bytes.as_slice()) {
        Ok(trace) => Ok(trace),
        Err(ReadFault::Memory) => Err(Stop::Memory),
        Err(ReadFault::Fault(fault)) => Err(Stop::Refused(fault)),
    }
}

/// The words that the listing in a source's bytes is assembled to, read to their end.
pub fn take_words<S: Source>(alloc: Global, source: &mut S) -> Result<Vec<u32>, Stop<TextFault>>
    ensures words { IfOk result
        (λ words. TakesWords (S.left source.old) (S.left source.new) words.items) }
    ensures stop { IfErr result (Stops HasListingFault (S.left source.old) (S.left source.new)) }
    ensures failed { HasFailed result → Rose (S.faults source.old) (S.faults source.new) }
    ensures unraised { (HasFailed result → ⊥) → S.faults source.new ≡ S.faults source.old }
{
    let bytes = match read_all(alloc, source) {
        Ok(bytes) => bytes,
        Err(ReadStop::Failed) => return Err(Stop::Failed),
        Err(ReadStop::Memory) => return Err(Stop::Memory),
    };
    match assemble(alloc, bytes.as_slice()) {
        Ok(words) => Ok(words),
        Err(fault) => Err(listing_stop(fault)),
    }
}

/// Why no listing was taken, where assembling has this fault.
fn listing_stop(fault: TextFault) -> Stop<TextFault>
    ensures { result ≡ listing_stop fault }
{
    match fault.cause {
        TextCause::Memory => Stop::Memory,
        _ => Stop::Refused(fault),
    }
}
