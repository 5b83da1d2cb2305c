ghost use Rattle.std.specs.Prelude.{◌≡◌, ℕ, ◌+◌, ◌<◌, ◌≤◌, ◌⊎◌, length, IfOk};
ghost use Rattle.std.specs.Io.KnownBytes.{Consumes, IsAtEnd};
ghost use Rattle.basics.specs.Count.{Rose};
ghost use Rattle.gpl_play.specs.Reads.{Reads};

use gpl_edge::Source;
use limits::TRACE_BYTES;
use std::alloc::Global;

/// How many bytes a read asks for at most.
const CHUNK: usize = 4096;

/// Why reading stopped before its end.
#[derive(Clone, Copy, Debug, Drop)]
pub enum ReadStop {
    Failed,
    Memory,
}

/// The bytes of a source, to its end or one byte past the limit.
pub fn read_all<S: Source>(alloc: Global, source: &mut S) -> Result<Vec<u8>, ReadStop>
    ensures read { IfOk result
        (λ bytes. Reads (S.left source.old) (S.left source.new) bytes.items) }
    ensures failed { result ≡ Err ReadStop.Failed
        → Rose (S.faults source.old) (S.faults source.new) }
    ensures unraised { (result ≡ Err ReadStop.Failed → ⊥)
        → S.faults source.new ≡ S.faults source.old }
{
    let mut bytes = Vec::new(alloc);
    let mut buffer = [0; CHUNK];
    while bytes.len() <= TRACE_BYTES {
        let room = (TRACE_BYTES + 1 - bytes.len()).min(CHUNK);
        let Ok(count) = source.read(&mut buffer[..room]) else {
            return Err(ReadStop::Failed);
        };
        if count == 0 {
            return Ok(bytes);
        }
        if bytes.extend_from_slice(&buffer[..count]).is_err() {
            return Err(ReadStop::Memory);
        }
    }
    Ok(bytes)
}
