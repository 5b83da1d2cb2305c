//! Modules are listed, and listings assembled.
use sample_modules::shader_words::NUMBER;
use spv_text::{ListFault, TextCause, WordsFault, assemble, list_text};
use std::alloc::{AllocError, Global};
use std::test::Fail;

/// The listing of [`NUMBER`].
const NUMBER_TEXT: &[u8] = b"spvt 1 9\n\
    OpCapability 1\n\
    OpMemoryModel 0 1\n\
    OpEntryPoint 4 %7 x6d61696e %5\n\
    OpExecutionMode %7 7\n\
    OpDecorate %5 30 0\n\
    %1 = OpTypeVoid\n\
    %2 = OpTypeFunction %1\n\
    %3 = OpTypeInt 32 0\n\
    %4 = OpTypePointer 3 %3\n\
    %5 = OpVariable %4 3\n\
    %6 = OpConstant %3 42\n\
    %7 = OpFunction %1 0 %2\n\
    %8 = OpLabel\n\
    OpStore %5 %6\n\
    OpReturn\n\
    OpFunctionEnd\n";

// What assembling this text answers, if it is a fault.
fn fault_of(alloc: Global, text: &[u8]) -> Option<(u32, TextCause)> {
    match assemble(alloc, text) {
        Ok(_) => None,
        Err(fault) => Some((fault.line, fault.cause)),
    }
}

#[test]
fn a_module_is_listed_and_assembled(rt: HostRuntime) -> Result<(), Fail> {
    let text = list_text(rt.alloc(), &NUMBER)?;
    assert_eq!(rt; text.as_slice(), NUMBER_TEXT);
    let words = assemble(rt.alloc(), NUMBER_TEXT).ok().ok_or("refused")?;
    assert_eq!(rt; words.as_slice(), NUMBER.as_slice());
    Ok(())
}

#[test]
fn words_that_are_no_module_have_no_listing(rt: HostRuntime) {
    assert_eq!(rt;
        list_text(rt.alloc(), &[]).err(),
        Some(ListFault::Words(WordsFault::BadHeader))
    );
    let float = [0x7230203, 0x10000, 0, 9, 0, 0x20013, 1, 0x30016, 2, 32];
    assert_eq!(rt;
        list_text(rt.alloc(), &float).err(),
        Some(ListFault::Words(WordsFault::FloatType))
    );
}

// A listing with a faulty line, the line's number and its first cause.
const FAULTY_LINES: [(&[u8], u32, TextCause); 26] = [
    (b"", 1, TextCause::NoHead),
    (b"spvt 1 9", 1, TextCause::NoEnd),
    (b"gplt 1\n", 1, TextCause::NoHead),
    (b"spvt 1 0\n", 1, TextCause::NoHead),
    (b"spvt 1 65537\n", 1, TextCause::NoHead),
    (b"spvt 1 09\n", 1, TextCause::NoHead),
    (b"spvt 1 9\r\nOpReturn\r\n", 1, TextCause::NoHead),
    (b"spvt 1 9\nOpReturn\r\n", 2, TextCause::NoName),
    (b"spvt 1 9\nOpReturn", 2, TextCause::NoEnd),
    (b"spvt 1 9\nOpNop", 2, TextCause::NoEnd),
    (b"spvt 1 9\n%3 = OpTypeFloat 32\n", 2, TextCause::NoName),
    (b"spvt 1 9\nOpNop\n", 2, TextCause::NoName),
    (b"spvt 1 9\n\n", 2, TextCause::NoName),
    (b"spvt 1 9\nOpRetur\n", 2, TextCause::NoName),
    (b"spvt 1 9\nOpStore\t%5 %6\n", 2, TextCause::NoName),
    (b"spvt 1 9\nOpReturn 0\n", 2, TextCause::BadOperands),
    (b"spvt 1 9\nOpStore 5 %6\n", 2, TextCause::BadOperands),
    (b"spvt 1 9\nOpStore %05 %6\n", 2, TextCause::BadOperands),
    (
        b"spvt 1 9\nOpStore %4294967296 %6\n",
        2,
        TextCause::BadOperands,
    ),
    (b"spvt 1 9\nOpLabel\n", 2, TextCause::BadOperands),
    (b"spvt 1 9\n%7 = OpPhi %3 %1\n", 2, TextCause::BadOperands),
    (b"spvt 1 9\nOpCapability 2\n", 2, TextCause::BadOperands),
    (
        b"spvt 1 9\n%1 = OpExtInstImport x4A\n",
        2,
        TextCause::BadOperands,
    ),
    (
        b"spvt 1 9\n%1 = OpExtInstImport x4100\n",
        2,
        TextCause::BadOperands,
    ),
    (
        b"spvt 1 9\nOpReturn\nOpReturn 0\nOpNop\n",
        3,
        TextCause::BadOperands,
    ),
    (b"spvt 1 9\nOpReturn\nOpKill \n", 3, TextCause::BadOperands),
];

#[test]
fn the_first_faulty_line_and_its_first_cause_are_answered(rt: HostRuntime) {
    for (text, line, cause) in FAULTY_LINES {
        assert_eq!(rt;
            fault_of(rt.alloc(), text),
            Some((line, cause)),
            "of {text:?}"
        );
    }
}

// A listing with the greatest id bound and so many lines of an instruction of one word.
fn returns(alloc: Global, count: usize) -> Result<Vec<u8>, AllocError> {
    let mut text = Vec::from_slice(alloc, b"spvt 1 65536\n")?;
    for _ in 0..count {
        text.extend_from_slice(b"OpReturn\n")?;
    }
    Ok(text)
}

#[test]
fn a_module_has_at_most_the_limit_of_words(rt: HostRuntime) -> Result<(), Fail> {
    let most = returns(rt.alloc(), 16_379)?;
    let words = assemble(rt.alloc(), &most).ok().ok_or("refused")?;
    assert_eq!(rt; words.len(), 16_384);
    let listed = list_text(rt.alloc(), &words)?;
    assert_eq!(rt; listed.as_slice(), most.as_slice());
    let more = returns(rt.alloc(), 16_380)?;
    assert_eq!(rt;
        fault_of(rt.alloc(), &more),
        Some((16_381, TextCause::TooManyWords))
    );
    Ok(())
}

// A listing of one OpTypeStruct with so many members.
fn structure(alloc: Global, count: usize) -> Result<Vec<u8>, AllocError> {
    let mut text = Vec::from_slice(alloc, b"spvt 1 9\n%1 = OpTypeStruct")?;
    for _ in 0..count {
        text.extend_from_slice(b" %4294967295")?;
    }
    text.extend_from_slice(b"\n")?;
    Ok(text)
}

#[test]
fn a_line_has_at_most_the_words_of_a_module(rt: HostRuntime) -> Result<(), Fail> {
    let most = structure(rt.alloc(), 16_377)?;
    let words = assemble(rt.alloc(), &most).ok().ok_or("refused")?;
    assert_eq!(rt; words.len(), 16_384);
    let listed = list_text(rt.alloc(), &words)?;
    assert_eq!(rt; listed.as_slice(), most.as_slice());
    let more = structure(rt.alloc(), 70_000)?;
    assert_eq!(rt;
        fault_of(rt.alloc(), &more),
        Some((2, TextCause::TooManyWords))
    );
    Ok(())
}
