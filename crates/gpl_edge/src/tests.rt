ghost use Rattle.std.specs.Prelude.{◌<◌};

use crate::{Failed, FirmSource, MemSink, MemSource, Memory, Sink, Source, StdSink, StdSource};
use std::alloc::Global;
use std::test::Fail;

#[test]
fn a_firm_source_gives_all_and_then_its_end(rt: HostRuntime) -> Result<(), Fail> {
    let mut source = FirmSource::new(b"hello".to_vec(rt.alloc())?);
    let mut buf = [0; 4];
    assert_eq!(rt; source.read(&mut buf), Ok(4));
    assert_eq!(rt; buf, *b"hell");
    assert_eq!(rt; source.read(&mut buf), Ok(1));
    assert_eq!(rt; buf, *b"oell");
    assert_eq!(rt; source.read(&mut buf), Ok(0));
    Ok(())
}

#[test]
fn a_source_fails_at_its_listed_call_and_goes_on(rt: HostRuntime) -> Result<(), Fail> {
    let failing = [1].to_vec(rt.alloc())?;
    let mut source = MemSource::new(b"abc".to_vec(rt.alloc())?, 1, failing);
    let mut buf = [b'.'; 2];
    assert_eq!(rt; source.read(&mut buf), Ok(1));
    assert_eq!(rt; buf, *b"a.");
    assert_eq!(rt; source.read(&mut buf), Err(Failed));
    assert_eq!(rt; source.read(&mut buf), Ok(1));
    assert_eq!(rt; buf, *b"b.");
    assert_eq!(rt; source.read(&mut buf), Ok(1));
    assert_eq!(rt; source.read(&mut buf), Ok(0));
    assert_eq!(rt; buf, *b"c.");
    Ok(())
}

#[test]
fn a_sink_keeps_what_it_held_where_a_call_fails_or_its_room_ends(
    rt: HostRuntime,
) -> Result<(), Fail> {
    let failing = [1].to_vec(rt.alloc())?;
    let mut sink = MemSink::new(rt.alloc(), 4, 3, failing)?;
    assert_eq!(rt; sink.write(b"hello"), Ok(3));
    assert_eq!(rt; sink.write(b"lo"), Err(Failed));
    assert_eq!(rt; sink.held(), b"hel".as_slice());
    assert_eq!(rt; sink.write(b"lo"), Ok(1));
    assert_eq!(rt; sink.write(b"o"), Err(Failed));
    assert_eq!(rt; sink.write(b""), Ok(0));
    assert_eq!(rt; sink.held(), b"hell".as_slice());
    Ok(())
}

/// The most bytes of a trace or of the text of a play.
const GREATEST: usize = 1 << 24;

/// Bytes of one call.
const PIECE: usize = 65_521;

/// A sink with room for so many bytes, which were read and written piece by piece.
fn filled_sink(alloc: Global, size: usize, piece: usize) -> Result<MemSink, Memory>
    requires { 0 < piece }
{
    let mut source = MemSource::new(Vec::from_elem(alloc, b'x', size)?, piece, Vec::new(alloc));
    let mut sink = MemSink::new(alloc, size, piece, Vec::new(alloc))?;
    let mut buf = Vec::from_elem(alloc, 0, piece)?;
    for _ in 0..size {
        let Ok(count) = source.read(buf.as_mut_slice()) else {
            return Ok(sink);
        };
        let (bytes, _) = buf.split_at(count);
        if sink.write(bytes) != Ok(count) {
            return Ok(sink);
        }
    }
    Ok(sink)
}

#[test]
fn the_greatest_size_is_read_and_held_to_the_end(rt: HostRuntime) -> Result<(), Fail> {
    let mut sink = filled_sink(rt.alloc(), GREATEST, PIECE)?;
    assert_eq!(rt; sink.held().len(), GREATEST);
    assert_eq!(rt; sink.write(b"x"), Err(Failed));
    Ok(())
}

#[test]
fn readers_and_writers_serve_as_ends(rt: HostRuntime) -> Result<(), Fail> {
    let mut source = StdSource::new(b"ab".as_slice());
    let mut buf = [0; 3];
    assert_eq!(rt; source.read(&mut buf), Ok(2));
    assert_eq!(rt; buf, *b"ab\0");
    assert_eq!(rt; source.read(&mut buf), Ok(0));
    let mut sink = StdSink::new(rt.stdout());
    assert_eq!(rt; sink.write(b"printed\n"), Ok(8));
    assert_eq!(rt; sink.write(b""), Ok(0));
    Ok(())
}

#[test]
fn standard_input_serves_as_a_source(rt: HostRuntime) {
    let mut source = StdSource::new(rt.stdin());
    assert_eq!(rt; source.read(&mut []), Ok(0));
}
