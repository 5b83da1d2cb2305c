//! Plays over sources and sinks in memory, with the answers that the format's rules give.
ghost use Rattle.std.specs.Prelude.{◌<◌};

use crate::samples::{
    DIVIDES, DRAW, FRAGMENT, FRAGMENT_END, Module, PIPELINE, POINT, VERTEX, VERTEX_END, trace_of,
};
use gpl_edge::{FirmSource, MemSink, MemSource, NoGate, Sink, Source};
use gpl_play::{
    Cause, Outcome, TextCause, TextFault, TextRunFault, TraceFault, run, run_still, text_run,
};
use std::alloc::{AllocError, Global};
use std::sync::Wait;
use std::test::Fail;
use std::thread::Threads;

/// One point at (x, x) in a colour, on a target.
fn scene(alloc: Global, x: &str, colour: &str, target: &str) -> Result<String, AllocError> {
    let modules = [
        Module(VERTEX, x, VERTEX_END),
        Module(FRAGMENT, colour, FRAGMENT_END),
    ];
    trace(alloc, modules, target)
}

fn trace(alloc: Global, modules: [Module; 2], target: &str) -> Result<String, AllocError> {
    let lines = format!(in alloc; "{PIPELINE}target 0 u1 {target}\n{DRAW}")?;
    trace_of(alloc, "gplt 1\n", modules, lines.as_str())
}

fn point(alloc: Global) -> Result<String, AllocError> {
    scene(alloc, "00000080", "0000002a", "2 1 1 1 00000000")
}

const POINT_TEXT: &str = "target 0 u1 2 1 1 1\n0000002a 00000000\n";

/// What each word prints of the one point.
const CHECK_TEXT: &str = "code 0 vertex 0 0 0 68\ncode 1 fragment 0 1 0 56\n";

const LINKS_TEXT: &str = "pipe 0 ok ok\n";

const LISTINGS_TEXT: &str = "code 0\nspvt 1 12\nOpCapability 1\nOpMemoryModel 0 1\n\
     OpEntryPoint 0 %10 x6d61696e %6\nOpDecorate %6 11 0\n%1 = OpTypeVoid\n%2 = OpTypeFunction %1\n\
     %3 = OpTypeInt 32 1\n%4 = OpTypeVector %3 4\n%5 = OpTypePointer 3 %4\n%6 = OpVariable %5 3\n\
     %7 = OpConstant %3 0\n%8 = OpConstant %3 128\n%9 = OpConstantComposite %4 %8 %8 %7 %7\n\
     %10 = OpFunction %1 0 %2\n%11 = OpLabel\nOpStore %6 %9\nOpReturn\nOpFunctionEnd\ncode 1\n\
     spvt 1 9\nOpCapability 1\nOpMemoryModel 0 1\nOpEntryPoint 4 %7 x6d61696e %5\nOpExecutionMode %7 7\n\
     OpDecorate %5 30 0\n%1 = OpTypeVoid\n%2 = OpTypeFunction %1\n%3 = OpTypeInt 32 0\n\
     %4 = OpTypePointer 3 %3\n%5 = OpVariable %4 3\n%6 = OpConstant %3 42\n%7 = OpFunction %1 0 %2\n\
     %8 = OpLabel\nOpStore %5 %6\nOpReturn\nOpFunctionEnd\n";

/// A listing, and the line that it is assembled to.
const LISTING: &str = "spvt 1 9\nOpCapability 1\nOpReturn\n";

const CODE_TEXT: &str =
    "code 07230203 00010000 00000000 00000009 00000000 00020011 00000001 000100fd\n";

/// Each word, whether it reads a trace, and what it prints: of the one point, or of the listing.
const WORDS: [(&str, bool, &str); 5] = [
    ("play", true, POINT_TEXT),
    ("check", true, CHECK_TEXT),
    ("links", true, LINKS_TEXT),
    ("text", true, LISTINGS_TEXT),
    ("assemble", false, CODE_TEXT),
];

/// The bytes that a word reads.
fn bytes_for(alloc: Global, reads_trace: bool) -> Result<Vec<u8>, AllocError> {
    let text = if reads_trace {
        point(alloc)?
    } else {
        String::from_str(alloc, LISTING)?
    };
    text.as_bytes().to_vec(alloc)
}

/// The status of a call with these words.
fn status_of<R: Threads + Wait + Sync, S: Source, K: Sink>(
    rt: &R,
    alloc: Global,
    words: &[&str],
    source: &mut S,
    sink: &mut K,
) -> Result<u8, AllocError> {
    let mut list = Vec::new(alloc);
    for word in words {
        list.push(String::from_str(alloc, word)?)?;
    }
    let first = words.first().copied().unwrap_or("");
    if first == "text" || first == "assemble" {
        return Ok(text_run(alloc, &list, source, sink).status);
    }
    if first == "check" || first == "links" {
        return Ok(run_still(alloc, &list, source, sink).status);
    }
    Ok(run(rt, alloc, &list, source, sink, &NoGate).status)
}

pub fn sink(alloc: Global, piece: usize, failing: Vec<u64>) -> Result<MemSink, AllocError>
    requires { 0 < piece }
{
    MemSink::new(alloc, 4096, piece, failing)
}

/// Whether a call with these words on these bytes ends with this status, and has written this.
pub fn ends<R: Threads + Wait + Sync>(
    rt: &R,
    alloc: Global,
    words: &[&str],
    bytes: &[u8],
    status: u8,
    text: &[u8],
) -> Result<bool, AllocError> {
    let mut source = FirmSource::new(bytes.to_vec(alloc)?);
    let mut sink = sink(alloc, 4096, Vec::new(alloc))?;
    let ended = status_of(rt, alloc, words, &mut source, &mut sink)?;
    Ok(ended == status && sink.held() == text)
}

#[test]
fn plays_one_point(rt: HostRuntime) -> Result<(), Fail> {
    let target = "2 1 1 1 00000000";
    let none = "target 0 u1 2 1 1 1\n00000000 00000000\n";
    let tall = "target 0 u1 1 2 1 1\nffffffff\n00000007\n";
    for (x, colour, target, want) in [
        ("00000080", "0000002a", target, POINT_TEXT),
        ("00000300", "0000002a", target, none),
        ("ffffff80", "0000002a", target, none),
        ("00000080", "ffffffff", "1 2 1 1 00000007", tall),
    ] {
        let text = scene(rt.alloc(), x, colour, target)?;
        let is = ends(
            &rt,
            rt.alloc(),
            &["play"],
            text.as_bytes(),
            0,
            want.as_bytes(),
        )?;
        assert!(rt; is);
    }
    Ok(())
}

#[test]
fn plays_modules_of_any_form(rt: HostRuntime) -> Result<(), Fail> {
    let text = trace(rt.alloc(), [POINT, DIVIDES], "2 1 1 1 00000000")?;
    let want = b"target 0 u1 2 1 1 1\n0000000e 00000000\n";
    let is = ends(&rt, rt.alloc(), &["play"], text.as_bytes(), 0, want)?;
    assert!(rt; is);
    Ok(())
}

#[test]
fn prints_what_each_word_asks_for(rt: HostRuntime) -> Result<(), Fail> {
    for (word, reads_trace, want) in WORDS {
        let bytes = bytes_for(rt.alloc(), reads_trace)?;
        let is = ends(
            &rt,
            rt.alloc(),
            &[word],
            bytes.as_slice(),
            0,
            want.as_bytes(),
        )?;
        assert!(rt; is);
    }
    Ok(())
}

#[test]
fn takes_no_other_words(rt: HostRuntime) -> Result<(), Fail> {
    let bytes = bytes_for(rt.alloc(), true)?;
    for words in [
        &[] as &[&str],
        &["plan"],
        &["play", "x"],
        &["check", "check"],
        &["links", ""],
        &["text", "text"],
        &["assemble", "x"],
    ] {
        let is = ends(&rt, rt.alloc(), words, bytes.as_slice(), 1, b"")?;
        assert!(rt; is);
    }
    Ok(())
}

#[test]
fn refuses_what_is_no_trace(rt: HostRuntime) -> Result<(), Fail> {
    let text = point(rt.alloc())?;
    let (_, cut) = text.as_bytes().split_last().ok_or("empty")?;
    let unknown = trace(rt.alloc(), [Module("data", "", ""); 2], "2 1 1 1 00000000")?;
    for (bytes, line, cause) in [
        (cut, 12, Cause::BadLine),
        (b"".as_slice(), 1, Cause::NoHeader),
        (unknown.as_bytes(), 6, Cause::Unknown),
    ] {
        let fault = TraceFault { line, cause };
        assert!(rt; faults(&rt, rt.alloc(), bytes)? == (Some(fault), Some(fault), Some(fault)));
        for word in ["play", "check", "links", "text"] {
            let is = ends(&rt, rt.alloc(), &[word], bytes, 2, b"")?;
            assert!(rt; is);
        }
    }
    Ok(())
}

/// The outcome of `play` on these bytes.
pub fn play<R: Threads + Wait + Sync>(
    rt: &R,
    alloc: Global,
    bytes: Vec<u8>,
    sink: &mut MemSink,
) -> Result<Outcome, AllocError> {
    let mut source = FirmSource::new(bytes);
    Ok(run(rt, alloc, &one(alloc, "play")?, &mut source, sink, &NoGate))
}

/// What `play`, `check` and `text` say of these bytes.
type Faults = (Option<TraceFault>, Option<TraceFault>, Option<TraceFault>);

fn faults<R: Threads + Wait + Sync>(
    rt: &R,
    alloc: Global,
    bytes: &[u8],
) -> Result<Faults, AllocError> {
    let mut sink = sink(alloc, 4096, Vec::new(alloc))?;
    let play = play(rt, alloc, bytes.to_vec(alloc)?, &mut sink)?.fault;
    let mut source = FirmSource::new(bytes.to_vec(alloc)?);
    let check = run_still(alloc, &one(alloc, "check")?, &mut source, &mut sink).fault;
    let mut source = FirmSource::new(bytes.to_vec(alloc)?);
    let text = text_run(alloc, &one(alloc, "text")?, &mut source, &mut sink).fault;
    let text = match text {
        Some(TextRunFault::Trace(fault)) => Some(fault),
        _ => None,
    };
    Ok((play, check, text))
}

/// The list of this word alone.
pub fn one(alloc: Global, word: &str) -> Result<Vec<String>, AllocError> {
    let mut words = Vec::new(alloc);
    words.push(String::from_str(alloc, word)?)?;
    Ok(words)
}

#[test]
fn refuses_what_is_no_listing(rt: HostRuntime) -> Result<(), Fail> {
    for (bytes, line, cause) in [
        (b"".as_slice(), 1, TextCause::NoHead),
        (
            b"spvt 1 9\nOpReturn 0\n".as_slice(),
            2,
            TextCause::BadOperands,
        ),
        (
            b"spvt 1 9\nOpReturn\nOpNop\n".as_slice(),
            3,
            TextCause::NoName,
        ),
    ] {
        let mut source = FirmSource::new(bytes.to_vec(rt.alloc())?);
        let mut sink = sink(rt.alloc(), 4096, Vec::new(rt.alloc()))?;
        let words = one(rt.alloc(), "assemble")?;
        let outcome = text_run(rt.alloc(), &words, &mut source, &mut sink);
        let fault = TextRunFault::Text(TextFault { line, cause });
        assert_eq!(rt; outcome.status, 2);
        assert!(rt; outcome.fault == Some(fault));
        assert!(rt; sink.held().is_empty());
    }
    Ok(())
}

#[test]
fn reads_and_writes_a_byte_a_call(rt: HostRuntime) -> Result<(), Fail> {
    for (word, reads_trace, want) in WORDS {
        let bytes = bytes_for(rt.alloc(), reads_trace)?;
        let mut source = MemSource::new(bytes, 1, Vec::new(rt.alloc()));
        let mut sink = sink(rt.alloc(), 1, Vec::new(rt.alloc()))?;
        let status = status_of(&rt, rt.alloc(), &[word], &mut source, &mut sink)?;
        assert_eq!(rt; status, 0);
        assert_eq!(rt; sink.held(), want.as_bytes());
    }
    Ok(())
}

/// How many bytes a read or a write moves where one of them fails.
const PIECE: usize = 16;

#[test]
fn ends_at_each_read_that_fails(rt: HostRuntime) -> Result<(), Fail> {
    for (word, reads_trace, _) in WORDS {
        let bytes = bytes_for(rt.alloc(), reads_trace)?;
        for call in 0..=bytes.len().div_ceil(PIECE) {
            let failing = vec![in rt.alloc(); call as u64]?;
            let mut source = MemSource::new(bytes.as_slice().to_vec(rt.alloc())?, PIECE, failing);
            let mut sink = sink(rt.alloc(), 4096, Vec::new(rt.alloc()))?;
            let status = status_of(&rt, rt.alloc(), &[word], &mut source, &mut sink)?;
            assert_eq!(rt; status, 3);
            assert!(rt; sink.held().is_empty());
        }
    }
    Ok(())
}

#[test]
fn keeps_what_was_written_before_each_write_that_fails(rt: HostRuntime) -> Result<(), Fail> {
    for (word, reads_trace, want) in WORDS {
        let bytes = bytes_for(rt.alloc(), reads_trace)?;
        for call in 0..want.len().div_ceil(PIECE) {
            let failing = vec![in rt.alloc(); call as u64]?;
            let mut source = FirmSource::new(bytes.as_slice().to_vec(rt.alloc())?);
            let mut sink = sink(rt.alloc(), PIECE, failing)?;
            let status = status_of(&rt, rt.alloc(), &[word], &mut source, &mut sink)?;
            let (front, _) = want.as_bytes().split_at((PIECE * call).min(want.len()));
            assert_eq!(rt; status, 4);
            assert_eq!(rt; sink.held(), front);
        }
    }
    Ok(())
}
