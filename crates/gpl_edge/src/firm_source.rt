//! A source that never fails.
ghost use Rattle.std.specs.Prelude.{◌≡◌, length, drop, min, Ok, Some, IfOk, OnErr};
ghost use Rattle.std.specs.Io.{ReadsAtMost};
ghost use Rattle.gpl_edge.specs.Ends.{GivesFront, GivesNoneAtEnd, KeepsBytes};
ghost use Rattle.gpl_edge.specs.Sources.{buffer_after};

use crate::ends::{Failed, Source};
use crate::mem_source::copy_front;
use std::marker::Model;

/// Bytes in memory, which each read gives as far as the buffer goes. Contracts see the bytes that
/// are left.
#[derive(Drop)]
pub struct FirmSource {
    bytes: Vec<u8>,
    at: usize,
}

impl Model for FirmSource {
    ghost use Rattle.std.specs.Prelude.{ℕ, List, ◌≤◌, drop, length};

    ghost Value = { List ℕ };

    ghost view = { λ s. drop s.at s.bytes.items };

    ghost invariant = { λ s. s.at ≤ length s.bytes.items };
}

impl FirmSource {
    /// A source of these bytes.
    pub fn new(bytes: Vec<u8>) -> FirmSource
        ensures { result ≡ bytes.items }
    {
        FirmSource { bytes, at: 0 }
    }
}

impl Source for FirmSource {
    ghost left = { λ s. Some s };

    ghost faults = { λ _. 0 };

    fn read(&mut self, buf: &mut [u8]) -> Result<usize, Failed>
        ensures within { ReadsAtMost result buf.new }
        ensures gives { IfOk result (GivesFront Some self.old self.new buf.new) }
        ensures end { IfOk result (GivesNoneAtEnd Some self.new buf.new) }
        ensures stays { OnErr result (KeepsBytes Some self.old self.new) }

        // Beside the trait's: it never fails, and gives what the buffer has room for.
        ensures count { result ≡ Ok (min (length buf.old) (length self.old)) }
        ensures front { IfOk result (λ n. buf.new ≡ buffer_after buf.old n self.old) }
        ensures after { IfOk result (λ n. self.new ≡ drop n self.old) }
    {
        let left = &self.bytes[self.at..];
        let n = buf.len().min(left.len());
        copy_front(left, n, buf);
        self.at += n;
        Ok(n)
    }
}
