//! Standard input and output as a source and a sink.
ghost use Rattle.std.specs.Prelude.{◌≡◌, ◌<◌, ◌≤◌, length, IfOk, OnOk, OnErr};
ghost use Rattle.std.specs.Io.{ReadsAtMost, WritesAtMost};
ghost use Rattle.basics.specs.Count.{Rose, CountsOne};
ghost use Rattle.gpl_edge.specs.Ends.{GivesFront, GivesNoneAtEnd, AddsFront, KeepsBytes};
ghost use Rattle.gpl_edge.specs.StdEnds.{source_reader, read_errors, left_in};
ghost use Rattle.gpl_edge.specs.StdEnds.{sink_writer, write_errors, held_in};

use crate::ends::{Failed, Sink, Source};
use std::io::{Read, Write};

/// A reader as a source, for standard input: `StdSource::new(rt.stdin())`. It tells of the bytes
/// that are left what its reader tells: nothing, at standard input. Each error of the reader is one
/// fault.
#[derive(Drop)]
pub struct StdSource<R> {
    input: R,
    errors: u64,
}

impl<R: Read> StdSource<R> {
    /// The source that reads from this reader, with no fault so far.
    pub fn new(input: R) -> StdSource<R>
        ensures reader { source_reader result ≡ input }
        ensures unfailed { read_errors result ≡ 0 }
    {
        StdSource { input, errors: 0 }
    }
}

impl<R: Read> Source for StdSource<R> {
    ghost left = { left_in R.remaining };

    ghost faults = { read_errors };

    fn read(&mut self, buf: &mut [u8]) -> Result<usize, Failed>
        ensures within { ReadsAtMost result buf.new }
        ensures gives { IfOk result (GivesFront (left_in R.remaining) self.old self.new buf.new) }
        ensures end { IfOk result (GivesNoneAtEnd (left_in R.remaining) self.new buf.new) }
        ensures stays { OnErr result (KeepsBytes (left_in R.remaining) self.old self.new) }
        ensures never_falls { read_errors self.old ≤ read_errors self.new }
        ensures failed { OnErr result (Rose (read_errors self.old) (read_errors self.new)) }
        ensures unraised { OnOk result (read_errors self.new ≡ read_errors self.old) }

        // Beside the trait's: an error is one fault.
        ensures counted { OnErr result (CountsOne (read_errors self.old) (read_errors self.new)) }
    {
        match self.input.read(buf) {
            Ok(n) => Ok(n),
            Err(_) => {
                self.errors = self.errors.saturating_add(1);
                Err(Failed)
            }
        }
    }
}

/// A writer as a sink, for standard output: `StdSink::new(rt.stdout())`, which keeps nothing back,
/// so that what was taken has reached the stream. It tells of the bytes that it holds what its
/// writer tells: nothing, at standard output. Each error of the writer is one fault, and so is a
/// write that takes nothing of a piece that isn't empty.
#[derive(Drop)]
pub struct StdSink<W> {
    output: W,
    errors: u64,
}

impl<W: Write> StdSink<W> {
    /// The sink that writes to this writer, with no fault so far.
    pub fn new(output: W) -> StdSink<W>
        ensures writer { sink_writer result ≡ output }
        ensures unfailed { write_errors result ≡ 0 }
    {
        StdSink { output, errors: 0 }
    }
}

impl<W: Write> Sink for StdSink<W> {
    ghost held = { held_in W.contents };

    ghost faults = { write_errors };

    fn write(&mut self, piece: &[u8]) -> Result<usize, Failed>
        ensures within { WritesAtMost result piece.now }
        ensures some { IfOk result (λ n. 0 < length piece.now → 0 < n) }
        ensures appends { IfOk result (AddsFront (held_in W.contents) self.old self.new piece.now) }
        ensures stays { OnErr result (KeepsBytes (held_in W.contents) self.old self.new) }
        ensures never_falls { write_errors self.old ≤ write_errors self.new }
        ensures failed { OnErr result (Rose (write_errors self.old) (write_errors self.new)) }
        ensures unraised { OnOk result (write_errors self.new ≡ write_errors self.old) }

        // Beside the trait's: an error is one fault.
        ensures counted { OnErr result (CountsOne (write_errors self.old) (write_errors self.new)) }
    {
        match self.output.write(piece) {
            Ok(n) if n > 0 || piece.is_empty() => Ok(n),
            _ => {
                self.errors = self.errors.saturating_add(1);
                Err(Failed)
            }
        }
    }
}
