//! Where bytes come from, and where they go.
ghost use Rattle.std.specs.Prelude.{◌≡◌, ℕ, ◌<◌, ◌≤◌, List, Option, length, IfOk, OnOk, OnErr};
ghost use Rattle.std.specs.Io.{ReadsAtMost, WritesAtMost};
ghost use Rattle.basics.specs.Count.{Rose};
ghost use Rattle.gpl_edge.specs.Ends.{GivesFront, GivesNoneAtEnd, AddsFront, KeepsBytes};

pub use std::alloc::AllocError as Memory;

/// A read or a write failed. The count of faults of its source or sink says so too.
#[derive(Clone, Copy, Debug, PartialEq, Eq)]
pub struct Failed;

/// Where bytes come from.
pub trait Source {
    /// The bytes that are left to be read, where the source tells them.
    ghost left: { Self → Option (List ℕ) };

    /// How many reads have failed. The count never falls, and may stand still at 2^64 - 1.
    ghost faults: { Self → ℕ };

    /// Reads some bytes to the front of `buf`, and answers how many. At a buffer that isn't empty,
    /// 0 is the end.
    fn read(&mut self, buf: &mut [u8]) -> Result<usize, Failed>
        ensures within { ReadsAtMost result buf.new }
        ensures gives { IfOk result (GivesFront left self.old self.new buf.new) }
        ensures end { IfOk result (GivesNoneAtEnd left self.new buf.new) }
        ensures stays { OnErr result (KeepsBytes left self.old self.new) }

        ensures never_falls { faults self.old ≤ faults self.new }
        ensures failed { OnErr result (Rose (faults self.old) (faults self.new)) }
        ensures unraised { OnOk result (faults self.new ≡ faults self.old) };
}

/// Where bytes go.
pub trait Sink {
    /// The bytes that the sink holds, where it tells them.
    ghost held: { Self → Option (List ℕ) };

    /// How many writes have failed. The count never falls, and may stand still at 2^64 - 1.
    ghost faults: { Self → ℕ };

    /// Takes some bytes from the front of `piece`, and answers how many: at least one of a piece
    /// that isn't empty.
    fn write(&mut self, piece: &[u8]) -> Result<usize, Failed>
        ensures within { WritesAtMost result piece.now }
        ensures some { IfOk result (λ n. 0 < length piece.now → 0 < n) }
        ensures appends { IfOk result (AddsFront held self.old self.new piece.now) }
        ensures stays { OnErr result (KeepsBytes held self.old self.new) }

        ensures never_falls { faults self.old ≤ faults self.new }
        ensures failed { OnErr result (Rose (faults self.old) (faults self.new)) }
        ensures unraised { OnOk result (faults self.new ≡ faults self.old) };
}
