//! A sink over memory that fails at listed calls and where its room ends.
ghost use Rattle.std.specs.Prelude.{◌≡◌, ◌<◌, ◌≤◌, ◌↔◌, length, take, IsErr, IfOk, OnOk, OnErr};
ghost use Rattle.std.specs.Prelude.{IsNone, IfSome};
ghost use Rattle.std.specs.Io.{WritesAtMost};
ghost use Rattle.basics.specs.Count.{Rose};
ghost use Rattle.gpl_edge.specs.Ends.{AddsFront, KeepsBytes};
ghost use Rattle.gpl_edge.specs.Sinks.{new_sink, bytes_held, WriteFails, write_len};
ghost use Rattle.gpl_edge.specs.Sinks.{after_write, after_failed_write};

use crate::ends::{Failed, Memory, Sink};
use std::alloc::Global;
use std::marker::Model;

/// A room in memory, which is filled piece by piece, with a failure at each listed call. Contracts
/// see its `SinkState`.
#[derive(Drop)]
pub struct MemSink {
    bytes: Vec<u8>,
    room: usize,
    piece: usize,
    failing: Vec<u64>,
    calls: u64,
    faults: u64,
}

impl Model for MemSink {
    ghost use Rattle.std.specs.Prelude.{◌<◌, ◌≤◌, length, vec_len, vec_capacity};
    ghost use Rattle.gpl_edge.specs.Sinks.{SinkState};

    ghost Value = { SinkState };

    ghost view = { λ s. record {
      held = s.bytes.items;
      room = s.room;
      piece = s.piece;
      failing = s.failing.items;
      calls = s.calls;
      faults = s.faults;
    } };

    ghost invariant = { λ s. record {
      within : vec_len s.bytes ≤ s.room;
      has_room : s.room ≤ vec_capacity s.bytes;
      takes_some : 0 < s.piece;
    } };
}

impl MemSink {
    /// An empty sink for `room` bytes, which takes at most `piece` of them a call and fails at the
    /// calls that `failing` lists. Calls are counted from 0, and from call 2^64 - 1 on each has
    /// that number. The room is taken here, so that writing takes no memory.
    pub fn new(
        alloc: Global,
        room: usize,
        piece: usize,
        failing: Vec<u64>,
    ) -> Result<MemSink, Memory>
        requires { 0 < piece }
        ensures { IfOk result (λ s. s ≡ new_sink room piece failing.items) }
    {
        Ok(MemSink {
            bytes: Vec::with_capacity(alloc, room)?,
            room,
            piece,
            failing,
            calls: 0,
            faults: 0,
        })
    }

    /// The bytes that it holds.
    pub fn held(&self) -> &[u8]
        ensures { result.now ≡ self.now.held }
    {
        self.bytes.as_slice()
    }

    /// How many of `len` bytes the next write takes, or `None` where it fails.
    fn len_to_take(&self, len: usize) -> Option<usize>
        ensures fails { IsNone result ↔ WriteFails self.now len }
        ensures count { IfSome result (λ n. n ≡ write_len self.now len) }
    {
        let n = self.piece.min(len.min(self.room - self.bytes.len()));
        if self.failing.contains(&self.calls) {
            return None;
        }
        if n == 0 && len > 0 {
            return None;
        }
        Some(n)
    }
}

impl Sink for MemSink {
    ghost held = { bytes_held };

    ghost faults = { λ s. s.faults };

    fn write(&mut self, piece: &[u8]) -> Result<usize, Failed>
        ensures within { WritesAtMost result piece.now }
        ensures some { IfOk result (λ n. 0 < length piece.now → 0 < n) }
        ensures appends { IfOk result (AddsFront bytes_held self.old self.new piece.now) }
        ensures stays { OnErr result (KeepsBytes bytes_held self.old self.new) }
        ensures never_falls { self.old.faults ≤ self.new.faults }
        ensures failed { OnErr result (Rose self.old.faults self.new.faults) }
        ensures unraised { OnOk result (self.new.faults ≡ self.old.faults) }

        // Beside the trait's: which call fails, and how many bytes another takes.
        ensures fails { IsErr result ↔ WriteFails self.old (length piece.now) }
        ensures count { IfOk result (λ n. n ≡ write_len self.old (length piece.now)) }
        ensures after { IfOk result (λ n. self.new ≡ after_write self.old (take n piece.now)) }
        ensures after_failed { OnErr result (self.new ≡ after_failed_write self.old) }
    {
        let taken = self.len_to_take(piece.len());
        self.calls = self.calls.saturating_add(1);
        let Some(n) = taken else {
            self.faults = self.faults.saturating_add(1);
            return Err(Failed);
        };
        self.bytes.extend_from_slice(&piece[..n]).unwrap();
        Ok(n)
    }
}
