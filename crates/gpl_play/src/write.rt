ghost use Rattle.std.specs.Prelude.{◌≡◌, ℕ, List, ◌++◌, OnOk, OnErr};
ghost use Rattle.std.specs.Io.KnownBytes.{Appends};
ghost use Rattle.basics.specs.Count.{Rose};
ghost use Rattle.gpl_play.specs.Writes.{WritesFront};

use gpl_edge::{Failed, Sink};

/// Writes all of the text, or a front of it where a write fails.
pub fn write_all<K: Sink>(sink: &mut K, text: &[u8]) -> Result<(), Failed>
    ensures written { OnOk result (Appends (K.held sink.old) (K.held sink.new) text.now) }
    ensures unraised { OnOk result (K.faults sink.new ≡ K.faults sink.old) }
    ensures front { OnErr result (WritesFront (K.held sink.old) (K.held sink.new) text.now) }
    ensures failed { OnErr result (Rose (K.faults sink.old) (K.faults sink.new)) }
{
    let mut rest = text;
    while !rest.is_empty() {
        let count = sink.write(rest)?;
        let (_, after) = rest.split_at(count);
        rest = after;
    }
    Ok(())
}
