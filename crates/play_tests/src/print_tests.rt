//! The texts of traces, and of the lines on standard error.
use crate::row_tests::prints;
use crate::samples::{DIVIDES, PLACED, READS};
use body_model::TreeFault;
use check_model::CheckFault;
use draw_model::Targets;
use draw_model::framebuffer::Target;
use spirv_model::WordsFault;
use sqlite_items::Items;
use state_model::Rule;
use std::alloc::{AllocError, Global};
use std::test::Fail;
use trace_model::line_fault::{Cause, TraceFault};
use trace_text::{
    fault_line, links_text, memory_line, play_text, read_line, usage_line, write_line,
};
use valid_model::TypeFault;

/// A target of two layers, each a row of two pixels of four samples and three components, and a depth target of two rows.
fn two_targets(alloc: Global) -> Result<Targets, AllocError> {
    let mut words = Vec::new(alloc);
    for word in 0..48 {
        words.push(word)?;
    }
    let mut list = Vec::new(alloc);
    list.push(Target {
        format: 3,
        width: 2,
        height: 1,
        layers: 2,
        samples: 4,
        words: Items::from_vec(words),
    })?;
    list.push(Target {
        format: 9,
        width: 1,
        height: 2,
        layers: 1,
        samples: 1,
        words: Items::from_vec(Vec::from_slice(alloc, &[0x7fff_ffff, 0x8000_0000])?),
    })?;
    Ok(Targets {
        list: Items::from_vec(list),
    })
}

#[test]
fn samples_and_components_are_told_apart(rt: HostRuntime) -> Result<(), Fail> {
    let targets = two_targets(rt.alloc())?;
    let refused = [(7, Rule::L8(3)), (4095, Rule::L10)];
    let text = play_text(rt.alloc(), &targets, &refused)?;
    let expected = b"target 0 u3 2 1 2 4\n\
        00000000,00000001,00000002/00000003,00000004,00000005/00000006,00000007,00000008/00000009,0000000a,0000000b \
        0000000c,0000000d,0000000e/0000000f,00000010,00000011/00000012,00000013,00000014/00000015,00000016,00000017\n\
        00000018,00000019,0000001a/0000001b,0000001c,0000001d/0000001e,0000001f,00000020/00000021,00000022,00000023 \
        00000024,00000025,00000026/00000027,00000028,00000029/0000002a,0000002b,0000002c/0000002d,0000002e,0000002f\n\
        target 1 z 1 2 1 1\n\
        7fffffff\n\
        80000000\n\
        refused 7 L8@3\n\
        refused 4095 L10\n";
    assert_eq!(rt; text.as_slice(), expected.as_slice());
    Ok(())
}

#[test]
fn both_links_of_a_pipe_are_told(rt: HostRuntime) -> Result<(), Fail> {
    let links = [
        (None, None),
        (Some(Rule::L9(7)), Some(Rule::L9(7))),
        (None, Some(Rule::L10)),
    ];
    let text = links_text(rt.alloc(), &links)?;
    let expected = b"pipe 0 ok ok\npipe 1 L9@7 L9@7\npipe 2 ok L10\n";
    assert_eq!(rt; text.as_slice(), expected.as_slice());
    Ok(())
}

#[test]
fn modules_are_told_with_their_interfaces(rt: HostRuntime) -> Result<(), Fail> {
    let call = ("check", "gplt 1\n");
    let text = "code 0 vertex 1 0 0 70\ncode 1 fragment 0 1 1 69\n";
    assert!(rt; prints(&rt, rt.alloc(), call, [PLACED, DIVIDES], "", text)?);
    let text = "code 0 vertex 1 0 0 70\ncode 1 fragment 1 1 0 87\n";
    assert!(rt; prints(&rt, rt.alloc(), call, [PLACED, READS], "", text)?);
    Ok(())
}

#[test]
fn each_cause_is_named(rt: HostRuntime) -> Result<(), Fail> {
    for (line, cause, expected) in [
        (0, Cause::TooLong, "gplrun: line 0: TooLong\n"),
        (1, Cause::NoHeader, "gplrun: line 1: NoHeader\n"),
        (2, Cause::BadLine, "gplrun: line 2: BadLine\n"),
        (33, Cause::TooMany, "gplrun: line 33: TooMany\n"),
        (4, Cause::Unknown, "gplrun: line 4: Unknown\n"),
        (5, Cause::BadPart, "gplrun: line 5: BadPart\n"),
        (
            4_294_967_295,
            Cause::ForeignTarget,
            "gplrun: line 4294967295: ForeignTarget\n",
        ),
    ] {
        let text = fault_line(rt.alloc(), &TraceFault { line, cause })?;
        assert_eq!(rt; text.as_slice(), expected.as_bytes());
    }
    Ok(())
}

#[test]
fn a_module_is_refused_by_its_innermost_fault(rt: HostRuntime) -> Result<(), Fail> {
    for (fault, expected) in [
        (
            CheckFault::Words(WordsFault::UnknownOp(22)),
            "gplrun: line 2: UnknownOp\n",
        ),
        (
            CheckFault::Tree(TreeFault::TooDeep(9)),
            "gplrun: line 2: TooDeep\n",
        ),
        (
            CheckFault::Ids(TypeFault::BadDecoration(4)),
            "gplrun: line 2: BadDecoration\n",
        ),
        (CheckFault::NotVisible(3), "gplrun: line 2: NotVisible\n"),
        (CheckFault::EntryCount(0), "gplrun: line 2: EntryCount\n"),
    ] {
        let cause = Cause::BadModule(fault);
        let text = fault_line(rt.alloc(), &TraceFault { line: 2, cause })?;
        assert_eq!(rt; text.as_slice(), expected.as_bytes());
    }
    Ok(())
}

#[test]
fn other_ends_have_a_line_each(rt: HostRuntime) -> Result<(), Fail> {
    assert_eq!(rt; usage_line(), b"gplrun: usage\n".as_slice());
    assert_eq!(rt; read_line(), b"gplrun: read\n".as_slice());
    assert_eq!(rt; write_line(), b"gplrun: write\n".as_slice());
    assert_eq!(rt; memory_line(), b"gplrun: memory\n".as_slice());
    Ok(())
}
