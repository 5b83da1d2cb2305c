//! Words are read as instructions, and instructions written as words.
use limits::{MAX_BOUND, MODULE_WORDS};
use sample_modules::frame::inst;
use sample_modules::sample_words::{QUOTIENT, UNIFORM_QUOTIENT};
use sample_modules::shader_words::{ATTRIBUTE, NUMBER, POINT};
use spirv_model::{WordsFault, op};
use spv_words::{Entry, entry_of, ids, ids_are_below, read_module, result, write_module};
use std::alloc::{AllocError, Global};
use std::process::Abort;
use std::test::Fail;

#[test]
fn modules_are_read_and_written_back(rt: HostRuntime) -> Result<(), Fail> {
    let cases: [(&[u32], usize, u32); 5] = [
        (&POINT, 18, 12),
        (&ATTRIBUTE, 19, 12),
        (&NUMBER, 16, 9),
        (&QUOTIENT, 19, 11),
        (&UNIFORM_QUOTIENT, 29, 17),
    ];
    for (words, count, bound) in cases {
        let module = read_module(rt.alloc(), words)?;
        assert_eq!(rt; module.insts.as_slice().len(), count);
        assert_eq!(rt; module.bound, bound);
        let written = write_module(rt.alloc(), module.insts.as_slice(), module.bound)?;
        assert_eq!(rt; written.as_slice(), words);
    }
    Ok(())
}

#[test]
fn an_instruction_has_its_opcode_and_words(rt: HostRuntime) -> Result<(), Fail> {
    let module = read_module(rt.alloc(), &POINT)?;
    let insts = module.insts.as_slice();
    assert_eq!(rt; insts.len(), 18);
    assert_eq!(rt; insts[0].op, op::CAPABILITY);
    assert_eq!(rt; insts[0].words.as_slice(), [1].as_slice());
    assert_eq!(rt; insts[15].op, op::STORE);
    assert_eq!(rt; insts[15].words.as_slice(), [6, 9].as_slice());
    assert_eq!(rt; insts[17].op, op::FUNCTION_END);
    assert_eq!(rt; insts[17].words.as_slice(), [].as_slice());
    Ok(())
}

#[test]
fn a_header_is_tested(rt: HostRuntime) {
    let cases: [(&[u32], Option<WordsFault>); 12] = [
        (&[], Some(WordsFault::BadHeader)),
        (&[0x7230203, 0x10000, 0, 12], Some(WordsFault::BadHeader)),
        (&[0x7230203, 0x10000, 0, 12, 0], None),
        (&[0x7230203, 0x10600, 7, MAX_BOUND, 0], None),
        (&[0x7230203, 0x10700, 0, 12, 0], Some(WordsFault::BadHeader)),
        (&[0x7230203, 0x20000, 0, 12, 0], Some(WordsFault::BadHeader)),
        (&[0x7230203, 0x10001, 0, 12, 0], Some(WordsFault::BadHeader)),
        (&[0x3022307, 0x10000, 0, 12, 0], Some(WordsFault::BadHeader)),
        (&[0x7230203, 0x10000, 0, 0, 0], Some(WordsFault::BadHeader)),
        (
            &[0x7230203, 0x10000, 0, 65_537, 0],
            Some(WordsFault::BadHeader),
        ),
        (
            &[0x7230203, 0x10000, 0, u32::MAX, 0],
            Some(WordsFault::BadHeader),
        ),
        (
            &[0x7230203, 0x10000, 0, 12, 1, 0],
            Some(WordsFault::BadHeader),
        ),
    ];
    for (words, fault) in cases {
        assert_eq!(rt; read_module(rt.alloc(), words).err(), fault, "of {words:?}");
    }
}

#[test]
fn a_module_has_at_most_the_limit_of_words(rt: HostRuntime) -> Result<(), Fail> {
    // a word that is an OpNop of its own
    let mut words = [0x10000; MODULE_WORDS + 1];
    words[0] = 0x7230203;
    words[4] = 0;
    let (most, _) = words.split_at(MODULE_WORDS);
    assert_eq!(rt; read_module(rt.alloc(), most)?.insts.as_slice().len(), 0);
    assert_eq!(rt;
        read_module(rt.alloc(), &words).err(),
        Some(WordsFault::BadHeader)
    );
    Ok(())
}

// The words are read as so many instructions, and written back as they are.
fn reads_and_writes(
    rt: &impl Abort,
    alloc: Global,
    words: &[u32],
    count: usize,
) -> Result<(), Fail> {
    let module = read_module(alloc, words)?;
    assert_eq!(rt; module.insts.as_slice().len(), count);
    let written = write_module(alloc, module.insts.as_slice(), module.bound)?;
    assert_eq!(rt; written.as_slice(), words);
    Ok(())
}

#[test]
fn the_most_instructions_are_read_and_written(rt: HostRuntime) -> Result<(), Fail> {
    // each word after the header is an OpFunctionEnd of its own
    let mut words = [0x10038; MODULE_WORDS];
    let header = [0x7230203, 0x10000, 0, 1, 0];
    words[..5].copy_from_slice(&header);
    reads_and_writes(&rt, rt.alloc(), &words, 16_379)
}

#[test]
fn the_longest_instruction_is_read_and_written(rt: HostRuntime) -> Result<(), Fail> {
    // an OpTypeStruct of 16,379 words
    let mut words = [1; MODULE_WORDS];
    let front = [0x7230203, 0x10000, 0, 2, 0, 0x3ffb001e];
    words[..6].copy_from_slice(&front);
    reads_and_writes(&rt, rt.alloc(), &words, 1)
}

// What reading answers for these words after a good header.
fn fault_of(alloc: Global, body: &[u32]) -> Result<Option<WordsFault>, AllocError> {
    let mut words = Vec::from_slice(alloc, &[0x7230203, 0x10000, 0, 12, 0])?;
    words.extend_from_slice(body)?;
    Ok(read_module(alloc, &words).err())
}

/// Words after a good header, and their first fault.
const FAULTY_WORDS: [(&[u32], WordsFault); 18] = [
    (&[0x00000011], WordsFault::ZeroLength),
    (&[0x20011, 1, 0], WordsFault::ZeroLength),
    (&[0x00000005, 1], WordsFault::ZeroLength),
    (&[0x20011], WordsFault::CutShort),
    (&[0x30005, 1], WordsFault::CutShort),
    (&[0x20009], WordsFault::CutShort),
    (&[0x10009], WordsFault::UnknownOp(9)),
    (
        &[0x20011, 1, 0x100fe, 0x00000011],
        WordsFault::UnknownOp(254),
    ),
    (
        &[0x10000, 0x1ffff, 0x20011],
        WordsFault::UnknownOp(u16::MAX),
    ),
    (&[0x20011, 2], WordsFault::BadShape(0)),
    (
        &[0x20011, 1, 0x10000, 0x30005, 2, 0, 0x30010, 4, 8],
        WordsFault::BadShape(1),
    ),
    (&[0x10013, 0x10009], WordsFault::BadShape(0)),
    (&[0x30016, 1, 32], WordsFault::FloatType),
    (&[0x10000, 0x10016, 0], WordsFault::FloatType),
    (&[0x20014, 1, 0x10016], WordsFault::FloatType),
    (&[0x10016, 0x10009], WordsFault::FloatType),
    (
        &[0x20014, 1, 0x2013d, 0, 0x20014, 2, 0x20038, 1],
        WordsFault::BadShape(2),
    ),
    (
        &[0x20014, 1, 0x10038, 0x1014a, 0x20011],
        WordsFault::CutShort,
    ),
];

#[test]
fn the_first_fault_is_answered(rt: HostRuntime) -> Result<(), Fail> {
    for (body, fault) in FAULTY_WORDS {
        assert_eq!(rt; fault_of(rt.alloc(), body)?, Some(fault), "of {body:?}");
    }
    Ok(())
}

#[test]
fn words_fit_their_operands(rt: HostRuntime) -> Result<(), Fail> {
    let cases: [(&[u32], bool); 23] = [
        // OpExtInstImport: a text ends in its first word with a zero byte, which zeros fill
        (&[0x3000b, 1, 0], true),
        (&[0x3000b, 1, 0x414141], true),
        (&[0x4000b, 1, 0x41414141, 0x41], true),
        (&[0x3000b, 1, 0x41414141], false),
        (&[0x3000b, 1, 0x410041], false),
        (&[0x3000b, 1, 0x41000000], false),
        (&[0x4000b, 1, 0x41, 0], false),
        // OpEntryPoint: any number of ids after the text
        (&[0x4000f, 0, 1, 0], true),
        (&[0x6000f, 0, 1, 0, 2, 3], true),
        (&[0x3000f, 0, 1], false),
        // OpExecutionMode OriginUpperLeft
        (&[0x30010, 4, 7], true),
        (&[0x40010, 4, 7, 0], false),
        // OpPhi: pairs
        (&[0x300f5, 1, 2], true),
        (&[0x400f5, 1, 2, 3], false),
        (&[0x500f5, 1, 2, 3, 4], true),
        // OpSwitch: pairs after the selector and the default
        (&[0x300fb, 1, 2], true),
        (&[0x400fb, 1, 2, 0], false),
        (&[0x500fb, 1, 2, 0, 3], true),
        // OpAccessChain and OpCompositeExtract: one index at least
        (&[0x40041, 1, 2, 3], false),
        (&[0x50041, 1, 2, 3, 4], true),
        (&[0x40051, 1, 2, 3], false),
        (&[0x50051, 1, 2, 3, 0], true),
        // OpSource is skipped, whatever stands in it
        (&[0x50003, 1, 2, 3, 0x41414141], true),
    ];
    for (body, fits) in cases {
        let bad = Some(WordsFault::BadShape(0));
        let fault = if fits { None } else { bad };
        assert_eq!(rt; fault_of(rt.alloc(), body)?, fault, "of {body:?}");
    }
    Ok(())
}

#[test]
fn ids_stand_where_the_table_says(rt: HostRuntime) -> Result<(), Fail> {
    let cases: [(u16, &[u32], Option<u32>, &[u32]); 8] = [
        (
            op::ENTRY_POINT,
            &[0, 10, 0x6e69616d, 0, 6, 8],
            None,
            &[10, 6, 8],
        ),
        (op::CONSTANT, &[3, 7, 42], Some(7), &[3, 7]),
        (op::TYPE_STRUCT, &[5, 3, 4], Some(5), &[5, 3, 4]),
        (op::PHI, &[3, 7, 1, 2, 4, 5], Some(7), &[3, 7, 1, 2, 4, 5]),
        (op::SWITCH, &[3, 9, 70, 1, 80, 2], None, &[3, 9, 1, 2]),
        (op::STORE, &[6, 9], None, &[6, 9]),
        (op::RETURN, &[], None, &[]),
        (op::NAME, &[6, 0], None, &[]),
    ];
    for (op, words, gives, has) in cases {
        let inst = inst(rt.alloc(), op, words)?;
        assert_eq!(rt; result(&inst), gives);
        let mut left = ids(&inst);
        for id in has {
            assert_eq!(rt; left.next_id(), Some(*id));
        }
        assert_eq!(rt; left.next_id(), None);
    }
    Ok(())
}

#[test]
fn ids_lie_below_the_bound(rt: HostRuntime) -> Result<(), Fail> {
    let store = inst(rt.alloc(), op::STORE, &[6, 9])?;
    assert!(rt; ids_are_below(&store, 10));
    assert!(rt; !ids_are_below(&store, 9));
    let none = inst(rt.alloc(), op::STORE, &[6, 0])?;
    assert!(rt; !ids_are_below(&none, 10));
    let literal = inst(rt.alloc(), op::CONSTANT, &[3, 7, 42])?;
    assert!(rt; ids_are_below(&literal, 8));
    Ok(())
}

#[test]
fn opcodes_are_found(rt: HostRuntime) {
    assert!(rt; matches!(entry_of(op::NOP), Some(Entry::Skipped)));
    assert!(rt; matches!(entry_of(op::TYPE_FLOAT), Some(Entry::Float)));
    assert!(rt; matches!(entry_of(op::UNREACHABLE), Some(Entry::Listed(_, _))));
    assert!(rt; matches!(entry_of(op::MODULE_PROCESSED), Some(Entry::Skipped)));
    assert!(rt; entry_of(9).is_none());
    assert!(rt; entry_of(331).is_none());
}

#[test]
fn no_instructions_are_a_header(rt: HostRuntime) -> Result<(), Fail> {
    let written = write_module(rt.alloc(), &[], 7)?;
    assert_eq!(rt;
        written.as_slice(),
        [0x7230203, 0x10000, 0, 7, 0].as_slice()
    );
    Ok(())
}
