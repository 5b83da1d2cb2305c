//! Calls on whole traces of two modules, with texts and faults that the format's rules give.

use crate::call_tests::{ends, play, sink};
use crate::samples::{DIVIDES, LOOPS, Module, PLACED, PLAIN, POINT, READS, SELECTS, trace_of};
use std::alloc::{AllocError, Global};
use std::sync::Wait;
use std::test::Fail;
use std::thread::Threads;
use trace_text::fault_line;

/// A word with the first line of the trace that it reads.
pub type Call = (&'static str, &'static str);

pub const PLAY: Call = ("play", "gplt 1\n");

pub const PLAY_SECOND: Call = ("play", "gplt 2\n");

const LINKS: Call = ("links", "gplt 1\n");

/// Whether a call on a trace of two modules and these lines ends well and prints this.
pub fn prints<R: Threads + Wait + Sync>(
    rt: &R,
    alloc: Global,
    call: Call,
    modules: [Module; 2],
    lines: &str,
    text: &str,
) -> Result<bool, AllocError> {
    let (word, head) = call;
    let trace = trace_of(alloc, head, modules, lines)?;
    ends(rt, alloc, &[word], trace.as_bytes(), 0, text.as_bytes())
}

#[test]
fn divides_by_the_entry_or_its_default(rt: HostRuntime) -> Result<(), Fail> {
    for (call, modules, lines, text) in [
        (
            PLAY,
            [POINT, DIVIDES],
            "layout 0 0 - - - -\nvertex 1 points - - - -\nprerast 1 0 0 0 0 0 cw\nfragment 1 \
             1 0 0 - -\noutput 1 0 1:1 - u1:1 - - -\npipe 0 1 2 3\ntarget 0 u1 2 1 1 1 \
             ffffffff\nbind 0 0 - - - -\ndraw 0 0 0 1 0 1\n",
            "target 0 u1 2 1 1 1\n0000000e ffffffff\n",
        ),
        (
            PLAY,
            [POINT, DIVIDES],
            "layout 0 0 - - - -\nvertex 1 points - - - -\nprerast 1 0 0 0 0 0 cw\nfragment 1 \
             1 0 0 - - 0=00000000\noutput 1 0 1:1 - u1:1 - - -\npipe 0 1 2 3\ntarget 0 u1 2 1 \
             1 1 ffffffff\nbind 0 0 - - - -\ndraw 0 0 0 1 0 1\n",
            "target 0 u1 2 1 1 1\n00000000 ffffffff\n",
        ),
    ] {
        assert!(rt; prints(&rt, rt.alloc(), call, modules, lines, text)?);
    }
    Ok(())
}

#[test]
fn selects_by_the_entry_or_its_default(rt: HostRuntime) -> Result<(), Fail> {
    for (call, modules, lines, text) in [
        (
            PLAY,
            [POINT, SELECTS],
            "layout 0 0 - - - -\nvertex 1 points - - - -\nprerast 1 0 0 0 0 0 cw\nfragment 1 \
             1 0 0 - -\noutput 1 0 1:1 - u1:1 - - -\npipe 0 1 2 3\ntarget 0 u1 2 1 1 1 \
             ffffffff\nbind 0 0 - - - -\ndraw 0 0 0 1 0 1\n",
            "target 0 u1 2 1 1 1\n0000000b ffffffff\n",
        ),
        (
            PLAY,
            [POINT, SELECTS],
            "layout 0 0 - - - -\nvertex 1 points - - - -\nprerast 1 0 0 0 0 0 cw\nfragment 1 \
             1 0 0 - - 2=00000000\noutput 1 0 1:1 - u1:1 - - -\npipe 0 1 2 3\ntarget 0 u1 2 1 \
             1 1 ffffffff\nbind 0 0 - - - -\ndraw 0 0 0 1 0 1\n",
            "target 0 u1 2 1 1 1\n00000016 ffffffff\n",
        ),
    ] {
        assert!(rt; prints(&rt, rt.alloc(), call, modules, lines, text)?);
    }
    Ok(())
}

#[test]
fn loses_the_fragment_at_the_last_back_edge(rt: HostRuntime) -> Result<(), Fail> {
    for (call, modules, lines, text) in [
        (
            PLAY,
            [POINT, LOOPS],
            "layout 0 0 - - - -\nvertex 1 points - - - -\nprerast 1 0 0 0 0 0 cw\nfragment 1 \
             1 0 0 - -\noutput 1 0 1:1 - u1:1 - - -\npipe 0 1 2 3\ntarget 0 u1 2 1 1 1 \
             ffffffff\nbind 0 0 - - - -\ndraw 0 0 0 1 0 1\n",
            "target 0 u1 2 1 1 1\n00000003 ffffffff\n",
        ),
        (
            PLAY,
            [POINT, LOOPS],
            "layout 0 0 - - - -\nvertex 1 points - - - -\nprerast 1 0 0 0 0 0 cw\nfragment 1 \
             1 0 0 - - 1=00000fff\noutput 1 0 1:1 - u1:1 - - -\npipe 0 1 2 3\ntarget 0 u1 2 1 \
             1 1 ffffffff\nbind 0 0 - - - -\ndraw 0 0 0 1 0 1\n",
            "target 0 u1 2 1 1 1\n00000fff ffffffff\n",
        ),
        (
            PLAY,
            [POINT, LOOPS],
            "layout 0 0 - - - -\nvertex 1 points - - - -\nprerast 1 0 0 0 0 0 cw\nfragment 1 \
             1 0 0 - - 1=00001000\noutput 1 0 1:1 - u1:1 - - -\npipe 0 1 2 3\ntarget 0 u1 2 1 \
             1 1 ffffffff\nbind 0 0 - - - -\ndraw 0 0 0 1 0 1\n",
            "target 0 u1 2 1 1 1\nffffffff ffffffff\n",
        ),
    ] {
        assert!(rt; prints(&rt, rt.alloc(), call, modules, lines, text)?);
    }
    Ok(())
}

#[test]
fn reads_zero_where_no_output_feeds_an_input(rt: HostRuntime) -> Result<(), Fail> {
    let lines =
        "layout 0 0 - - - -\nvertex 1 points - - - -\nprerast 1 0 0 0 0 0 cw\nfragment 1 1 0 \
         0 - -\noutput 1 0 1:1 - u1:1 - - -\npipe 0 1 2 3\ntarget 0 u1 2 1 1 1 ffffffff\nbind \
         0 0 - - - -\ndraw 0 0 0 1 0 1\n";
    let text = "target 0 u1 2 1 1 1\n00000001 ffffffff\n";
    assert!(rt; prints(&rt, rt.alloc(), PLAY, [POINT, READS], lines, text)?);
    Ok(())
}

#[test]
fn draws_alike_for_attributes_in_any_order(rt: HostRuntime) -> Result<(), Fail> {
    let lines =
        "layout 0 0 - - - -\ndata 00000080 00000080 00000005 00000000\nvertex 1 points v:4 - \
         - - 0:0:s4:0 1:0:u1:0\nvertex 1 points v:4 - - - 1:0:u1:0 0:0:s4:0\nprerast 1 0 0 0 \
         0 0 cw\nprerast 1 0 0 0 0 0 cw 9=00000001\nfragment 1 1 0 0 - -\noutput 1 0 1:1 - \
         u1:1 - - -\npipe 0 2 4 5\npipe 1 3 4 5\ntarget 0 u1 2 1 1 1 00000000\ntarget 0 u1 2 \
         1 1 1 00000000\nvbuf 0 0 0\nbind 0 0 - - - -\ndraw 0 0 0 1 0 1\nbind 0 1 - - - -\n\
         draw 0 1 0 1 0 1\n";
    let text = "target 0 u1 2 1 1 1\n0000002a 00000000\ntarget 1 u1 2 1 1 1\n0000002a 00000000\n";
    assert!(rt; prints(&rt, rt.alloc(), PLAY, [PLACED, PLAIN], lines, text)?);
    Ok(())
}

#[test]
fn changes_nothing_without_an_instance_or_a_vertex(rt: HostRuntime) -> Result<(), Fail> {
    for (call, modules, lines, text) in [
        (
            PLAY,
            [POINT, PLAIN],
            "layout 0 0 - - - -\nvertex 1 points - - - -\nprerast 1 0 0 0 0 0 cw\nfragment 1 \
             1 0 0 - -\noutput 1 0 1:1 - u1:1 - - -\npipe 0 1 2 3\ntarget 0 u1 2 1 1 1 \
             ffffffff\nbind 0 0 - - - -\ndraw 0 0 0 1 0 0\n",
            "target 0 u1 2 1 1 1\nffffffff ffffffff\n",
        ),
        (
            PLAY,
            [POINT, PLAIN],
            "layout 0 0 - - - -\nvertex 1 points - - - -\nprerast 1 0 0 0 0 0 cw\nfragment 1 \
             1 0 0 - -\noutput 1 0 1:1 - u1:1 - - -\npipe 0 1 2 3\ntarget 0 u1 2 1 1 1 \
             ffffffff\nbind 0 0 - - - -\ndraw 0 0 0 0 0 1\n",
            "target 0 u1 2 1 1 1\nffffffff ffffffff\n",
        ),
    ] {
        assert!(rt; prints(&rt, rt.alloc(), call, modules, lines, text)?);
    }
    Ok(())
}

#[test]
fn discards_all_fragments(rt: HostRuntime) -> Result<(), Fail> {
    for (call, modules, lines, text) in [
        (
            PLAY,
            [POINT, PLAIN],
            "layout 0 0 - - - -\nvertex 1 points - - - -\nprerast 1 0 0 0 1 0 cw\nfragment 1 \
             1 0 0 - -\noutput 1 0 1:1 - u1:1 - - -\npipe 0 1\ntarget 0 u1 2 1 1 1 00000000\n\
             bind 0 0 - - - -\ndraw 0 0 0 1 0 1\n",
            "target 0 u1 2 1 1 1\n00000000 00000000\n",
        ),
        (
            PLAY,
            [POINT, PLAIN],
            "layout 0 0 - - - -\nvertex 1 points - - - -\nprerast 1 0 0 0 1 0 cw\nfragment 1 \
             1 0 0 - -\noutput 1 0 1:1 - u1:1 - - -\npipe 0 1 2 3\ntarget 0 u1 2 1 1 1 \
             00000000\nbind 0 0 - - - -\ndraw 0 0 0 1 0 1\n",
            "target 0 u1 2 1 1 1\n00000000 00000000\nrefused 0 L3\n",
        ),
    ] {
        assert!(rt; prints(&rt, rt.alloc(), call, modules, lines, text)?);
    }
    Ok(())
}

#[test]
fn draws_with_libraries_that_keep_nothing(rt: HostRuntime) -> Result<(), Fail> {
    let lines =
        "layout 0 0 - - - -\nvertex 0 points - - - -\nprerast 1 0 0 0 0 0 cw\nfragment 1 1 0 \
         0 - -\noutput 1 0 1:1 - u1:1 - - -\npipe 0 1 2 3\ntarget 0 u1 2 1 1 1 ffffffff\nbind \
         0 0 - - - -\ndraw 0 0 0 1 0 1\n";
    let text = "target 0 u1 2 1 1 1\n0000002a ffffffff\n";
    assert!(rt; prints(&rt, rt.alloc(), PLAY, [POINT, PLAIN], lines, text)?);
    Ok(())
}

#[test]
fn links_by_layouts_and_kinds(rt: HostRuntime) -> Result<(), Fail> {
    for (call, modules, lines, text) in [
        (
            LINKS,
            [POINT, PLAIN],
            "layout 1 0 1 - - -\nlayout 1 0 - 1 - -\nlayout 0 0 1 - - -\nlayout 0 0 - - - -\n\
             vertex 1 points - - - -\nprerast 1 0 1 0 0 0 cw\nprerast 1 0 2 0 0 0 cw\nprerast \
             1 0 3 0 0 0 cw\nfragment 1 1 0 0 - -\nfragment 1 1 2 0 - -\noutput 1 0 1:1 - \
             u1:1 - - -\nvertex 1 points - - - -\npipe 0 1 4 6\npipe 0 2 4 6\npipe 0 3 5 6\n\
             pipe 0 7 1 4 6\npipe 1 4 6\n",
            "pipe 0 ok ok\npipe 1 L4 L4\npipe 2 L5 L5\npipe 3 L2 L2\npipe 4 L1 L1\n",
        ),
        (
            LINKS,
            [POINT, PLAIN],
            "layout 0 0 - - - -\nvertex 0 points - - - -\nprerast 1 0 0 0 0 0 cw\nfragment 1 \
             1 0 0 - -\noutput 1 0 1:1 - u1:1 - - -\npipe 0 1 2 3\ntarget 0 u1 2 1 1 1 \
             ffffffff\nbind 0 0 - - - -\ndraw 0 0 0 1 0 1\n",
            "pipe 0 ok L10\n",
        ),
    ] {
        assert!(rt; prints(&rt, rt.alloc(), call, modules, lines, text)?);
    }
    Ok(())
}

#[test]
fn takes_sixteen_entries(rt: HostRuntime) -> Result<(), Fail> {
    let lines =
        "layout 0 0 - - - -\nvertex 1 points - - - -\nprerast 1 0 0 0 0 0 cw\nfragment 1 1 0 \
         0 - - 0=00000007 1=00000001 2=00000001 3=00000001 4=00000001 5=00000001 6=00000001 \
         7=00000001 8=00000001 9=00000001 10=00000001 11=00000001 12=00000001 13=00000001 \
         14=00000001 15=00000001\noutput 1 0 1:1 - u1:1 - - - - - - -\npipe 0 1 2 3\ntarget 0 \
         u1 2 1 1 1 ffffffff\nbind 0 0 - - - - - - - -\ndraw 0 0 0 1 0 1\n";
    let text = "target 0 u1 2 1 1 1\n0000000e ffffffff\n";
    assert!(rt; prints(&rt, rt.alloc(), PLAY_SECOND, [POINT, DIVIDES], lines, text)?);
    Ok(())
}

#[test]
fn takes_no_words_of_another_form(rt: HostRuntime) -> Result<(), Fail> {
    for words in [
        &["play", "--workers", "5"] as &[&str],
        &["play", "--serves", "--serves"],
        &["play", "extra"],
        &["make", "01", "5"],
        &["drive", "1", "0"],
    ] {
        assert!(rt; ends(&rt, rt.alloc(), words, b"gplt 1\n", 1, b"")?);
    }
    Ok(())
}

/// Whether `play` refuses these bytes with this line, and writes nothing.
fn refuses<R: Threads + Wait + Sync>(
    rt: &R,
    alloc: Global,
    bytes: Vec<u8>,
    line: &str,
) -> Result<bool, AllocError> {
    let mut sink = sink(alloc, 4096, Vec::new(alloc))?;
    let outcome = play(rt, alloc, bytes, &mut sink)?;
    let Some(fault) = outcome.fault else {
        return Ok(false);
    };
    let told = fault_line(alloc, &fault)?;
    Ok(outcome.status == 2 && sink.held().is_empty() && told.as_slice() == line.as_bytes())
}

#[test]
fn refuses_a_byte_too_many(rt: HostRuntime) -> Result<(), Fail> {
    let bytes = vec![in rt.alloc(); b'x'; 16_777_217]?;
    assert!(rt; refuses(&rt, rt.alloc(), bytes, "gplrun: line 0: TooLong\n")?);
    Ok(())
}

/// Whether `play` refuses a trace of two modules and these lines with this line.
fn refuses_lines<R: Threads + Wait + Sync>(
    rt: &R,
    alloc: Global,
    head: &str,
    lines: &str,
    line: &str,
) -> Result<bool, AllocError> {
    let trace = trace_of(alloc, head, [POINT, PLAIN], lines)?;
    refuses(rt, alloc, trace.as_bytes().to_vec(alloc)?, line)
}

#[test]
fn refuses_more_places_than_the_version_has(rt: HostRuntime) -> Result<(), Fail> {
    for (head, lines, line) in [
        (
            "gplt 1\n",
            "layout 0 0 - - - -\nvertex 1 points - - - -\nprerast 1 0 0 0 0 0 cw\nfragment 1 1 0 \
         0 - -\noutput 1 0 1:1 - u1:1 u1:1 u1:1 u1:1 u1:1 u1:1 u1:1 u1:1\npipe 0 1 2 3\n\
         target 0 u1 2 1 1 1 ffffffff\nbind 0 0 - - - -\ndraw 0 0 0 1 0 1\n",
            "gplrun: line 8: BadLine\n",
        ),
        (
            "gplt 2\n",
            "layout 0 0 - - - -\nvertex 1 points - - - -\nprerast 1 0 0 0 0 0 cw\nfragment 1 1 0 \
         0 - - 0=00000001 1=00000001 2=00000001 3=00000001 4=00000001 5=00000001 6=00000001 \
         7=00000001 8=00000001 9=00000001 10=00000001 11=00000001 12=00000001 13=00000001 \
         14=00000001 15=00000001 16=00000001\n",
            "gplrun: line 7: BadLine\n",
        ),
    ] {
        assert!(rt; refuses_lines(&rt, rt.alloc(), head, lines, line)?);
    }
    Ok(())
}

#[test]
fn refuses_what_earlier_lines_do_not_fit(rt: HostRuntime) -> Result<(), Fail> {
    for (head, lines, line) in [
        (
            "gplt 1\n",
            "layout 0 0 - - - -\nvertex 1 points - - - -\nprerast 1 0 0 0 0 0 cw\nfragment 1 1 0 \
         0 - -\noutput 1 0 1:1 - u1:1 - - -\npipe 0 1 2 4\ntarget 0 u1 2 1 1 1 ffffffff\nbind \
         0 0 - - - -\ndraw 0 0 0 1 0 1\n",
            "gplrun: line 9: Unknown\n",
        ),
        (
            "gplt 1\n",
            "layout 0 0 - - - -\nvertex 1 points - - - -\nprerast 1 0 0 0 0 0 cw\nfragment 1 1 0 \
         0 - -\noutput 1 0 1:1 - u1:1 - - -\npipe 0 1 2 3\ntarget 0 u1 2 1 1 1 ffffffff\nbind \
         0 - - - - 0\n",
            "gplrun: line 11: Unknown\n",
        ),
        (
            "gplt 1\n",
            "layout 0 0 - - - -\nvertex 1 points - - - -\nprerast 1 1 0 0 0 0 cw\nfragment 1 1 0 \
         0 - -\noutput 1 0 1:1 - u1:1 - - -\npipe 0 1 2 3\ntarget 0 u1 2 1 1 1 ffffffff\nbind \
         0 0 - - - -\ndraw 0 0 0 1 0 1\n",
            "gplrun: line 6: BadPart\n",
        ),
        (
            "gplt 1\n",
            "layout 0 0 - - - -\nvertex 1 points - - - -\nprerast 1 0 0 0 0 0 cw\nfragment 1 1 0 \
         0 - -\noutput 1 0 1:1 - u1:1 - - -\npipe 0 1 2 3\ntarget 1 u1 2 1 1 1 ffffffff\nbind \
         0 0 - - - -\ndraw 0 0 0 1 0 1\n",
            "gplrun: line 11: ForeignTarget\n",
        ),
    ] {
        assert!(rt; refuses_lines(&rt, rt.alloc(), head, lines, line)?);
    }
    Ok(())
}

#[test]
fn refuses_a_head_a_size_and_words_past_the_rules(rt: HostRuntime) -> Result<(), Fail> {
    for (trace, line) in [
        ("gplt 3\n", "gplrun: line 1: NoHeader\n"),
        (
            "gplt 1\ntarget 0 u4 256 256 4 4 00000000\n",
            "gplrun: line 2: TooMany\n",
        ),
        (
            "gplt 1\ncode 07230203 00010000 00000000 0000000c 00000000 00030016 00000001 \
         00000020\n",
            "gplrun: line 2: FloatType\n",
        ),
        (
            "gplt 1\ncode 07230203 00010000 00000000 0000000c 00000000 00000011\n",
            "gplrun: line 2: ZeroLength\n",
        ),
        (
            "gplt 1\ncode 07230203 00010000 00000000 0000000c 00000000 00020011\n",
            "gplrun: line 2: CutShort\n",
        ),
        (
            "gplt 1\ncode 07230203 00010000 00000000 ffffffff 00000000\n",
            "gplrun: line 2: BadHeader\n",
        ),
    ] {
        let bytes = trace.as_bytes().to_vec(rt.alloc())?;
        assert!(rt; refuses(&rt, rt.alloc(), bytes, line)?);
    }
    Ok(())
}
