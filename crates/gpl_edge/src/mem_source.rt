//! A source over memory that fails at listed calls.
ghost use Rattle.std.specs.Prelude.{◌≡◌, ◌<◌, ◌≤◌, ◌↔◌, length, IfOk, OnOk, OnErr, IsErr};
ghost use Rattle.std.specs.Io.{ReadsAtMost};
ghost use Rattle.basics.specs.Count.{Rose};
ghost use Rattle.gpl_edge.specs.Ends.{GivesFront, GivesNoneAtEnd, KeepsBytes};
ghost use Rattle.gpl_edge.specs.Sources.{new_source, bytes_left, ReadFails, read_len, buffer_after};
ghost use Rattle.gpl_edge.specs.Sources.{after_read, after_failed_read};

use crate::ends::{Failed, Source};
use std::marker::Model;

/// Bytes in memory, which are given piece by piece, with a failure at each listed call. Contracts
/// see its `SourceState`.
#[derive(Drop)]
pub struct MemSource {
    bytes: Vec<u8>,
    at: usize,
    piece: usize,
    failing: Vec<u64>,
    calls: u64,
    faults: u64,
}

impl Model for MemSource {
    ghost use Rattle.std.specs.Prelude.{◌<◌, ◌≤◌, drop, length};
    ghost use Rattle.gpl_edge.specs.Sources.{SourceState};

    ghost Value = { SourceState };

    ghost view = { λ s. record {
      left = drop s.at s.bytes.items;
      piece = s.piece;
      failing = s.failing.items;
      calls = s.calls;
      faults = s.faults;
    } };

    ghost invariant = { λ s. (s.at ≤ length s.bytes.items) × (0 < s.piece) };
}

impl MemSource {
    /// A source of these bytes, which gives at most `piece` of them a call and fails at the calls
    /// that `failing` lists. Calls are counted from 0, and from call 2^64 - 1 on each has that
    /// number.
    pub fn new(bytes: Vec<u8>, piece: usize, failing: Vec<u64>) -> MemSource
        requires { 0 < piece }
        ensures { result ≡ new_source bytes.items piece failing.items }
    {
        MemSource {
            bytes,
            at: 0,
            piece,
            failing,
            calls: 0,
            faults: 0,
        }
    }
}

impl Source for MemSource {
    ghost left = { bytes_left };

    ghost faults = { λ s. s.faults };

    fn read(&mut self, buf: &mut [u8]) -> Result<usize, Failed>
        ensures within { ReadsAtMost result buf.new }
        ensures gives { IfOk result (GivesFront bytes_left self.old self.new buf.new) }
        ensures end { IfOk result (GivesNoneAtEnd bytes_left self.new buf.new) }
        ensures stays { OnErr result (KeepsBytes bytes_left self.old self.new) }
        ensures never_falls { self.old.faults ≤ self.new.faults }
        ensures failed { OnErr result (Rose self.old.faults self.new.faults) }
        ensures unraised { OnOk result (self.new.faults ≡ self.old.faults) }

        // Beside the trait's: which call fails, and how many bytes another gives.
        ensures fails { IsErr result ↔ ReadFails self.old }
        ensures count { IfOk result (λ n. n ≡ read_len self.old (length buf.old)) }
        ensures front { IfOk result (λ n. buf.new ≡ buffer_after buf.old n self.old.left) }
        ensures after { IfOk result (λ n. self.new ≡ after_read self.old n) }
        ensures unfilled { OnErr result (buf.new ≡ buf.old) }
        ensures after_failed { OnErr result (self.new ≡ after_failed_read self.old) }
    {
        let call = self.calls;
        self.calls = call.saturating_add(1);
        if self.failing.contains(&call) {
            self.faults = self.faults.saturating_add(1);
            return Err(Failed);
        }
        let left = &self.bytes[self.at..];
        let n = self.piece.min(buf.len().min(left.len()));
        copy_front(left, n, buf);
        self.at += n;
        Ok(n)
    }
}

/// Copies the first `n` bytes of `from` to the front of `to`.
pub(crate) fn copy_front(from: &[u8], n: usize, to: &mut [u8])
    requires given { n ≤ length from.now }
    requires room { n ≤ length to.old }
    ensures { to.new ≡ buffer_after to.old n from.now }
{
    to[..n].copy_from_slice(&from[..n]);
}
