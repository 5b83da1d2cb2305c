//! What ids mean, and the first fault of ids, types and constants.
use limits::MODULE_WORDS;
use sample_modules::frame::{Listing, list_of};
use sample_modules::sample_words::{QUOTIENT, UNIFORM_QUOTIENT};
use sample_modules::shader_words::{ATTRIBUTE, NUMBER, POINT};
use spirv_model::{Inst, Items, Words, decoration, op};
use spv_types::{Ids, Meaning, Shape, TypeFault, ids_of};
use spv_words::read_module;
use std::alloc::{AllocError, Global};
use std::test::Fail;

/// A signed and an unsigned integer type, OpTypeBool and the constant 5.
const TYPES: Listing = &[
    (op::TYPE_INT, &[1, 32, 1]),
    (op::TYPE_INT, &[2, 32, 0]),
    (op::TYPE_BOOL, &[3]),
    (op::CONSTANT, &[1, 4, 5]),
];

/// What stands after these, and the fault.
const CASES: [(Listing, Option<TypeFault>); 27] = [
    // an id that is given a meaning twice
    (&[(op::TYPE_BOOL, &[3])], Some(TypeFault::IdTwice(3))),
    // a result that is equal to the bound
    (&[(op::TYPE_BOOL, &[12])], Some(TypeFault::IdOutOfBound(4))),
    // the id 0 as an operand
    (
        &[(op::TYPE_VECTOR, &[5, 0, 2])],
        Some(TypeFault::IdOutOfBound(4)),
    ),
    // a structure that names itself
    (&[(op::TYPE_STRUCT, &[5, 5])], Some(TypeFault::BadType(4))),
    // a structure that names a later type
    (
        &[(op::TYPE_STRUCT, &[5, 6]), (op::TYPE_VOID, &[6])],
        Some(TypeFault::BadType(4)),
    ),
    // an array of 4,097 integers
    (
        &[(op::CONSTANT, &[2, 5, 4097]), (op::TYPE_ARRAY, &[6, 1, 5])],
        Some(TypeFault::BadType(5)),
    ),
    // 2^32 - 1 arrays of 4,096 integers
    (
        &[
            (op::CONSTANT, &[2, 5, 4096]),
            (op::TYPE_ARRAY, &[6, 1, 5]),
            (op::CONSTANT, &[2, 7, 0xffff_ffff]),
            (op::TYPE_ARRAY, &[8, 6, 7]),
        ],
        Some(TypeFault::BadType(7)),
    ),
    // an array of -1 integers
    (
        &[
            (op::CONSTANT, &[1, 5, 0xffff_ffff]),
            (op::TYPE_ARRAY, &[6, 1, 5]),
        ],
        Some(TypeFault::BadType(5)),
    ),
    // an array whose length can be specialized
    (
        &[
            (op::SPEC_CONSTANT, &[1, 5, 3]),
            (op::TYPE_ARRAY, &[6, 1, 5]),
        ],
        Some(TypeFault::BadType(5)),
    ),
    // a structure of 4,097 words
    (
        &[
            (op::CONSTANT, &[2, 5, 2048]),
            (op::TYPE_ARRAY, &[6, 1, 5]),
            (op::TYPE_STRUCT, &[7, 6, 3, 6]),
        ],
        Some(TypeFault::BadType(6)),
    ),
    // an integer of 64 bits
    (&[(op::TYPE_INT, &[5, 64, 0])], Some(TypeFault::BadType(4))),
    // five components
    (
        &[(op::TYPE_VECTOR, &[5, 1, 5])],
        Some(TypeFault::BadType(4)),
    ),
    // a vector of vectors
    (
        &[(op::TYPE_VECTOR, &[5, 1, 2]), (op::TYPE_VECTOR, &[6, 5, 2])],
        Some(TypeFault::BadType(5)),
    ),
    // an unknown storage class
    (
        &[(op::TYPE_POINTER, &[5, 4, 1])],
        Some(TypeFault::BadType(4)),
    ),
    // a pointer to a pointer
    (
        &[
            (op::TYPE_POINTER, &[5, 7, 1]),
            (op::TYPE_POINTER, &[6, 7, 5]),
        ],
        Some(TypeFault::BadType(5)),
    ),
    // a variable of another class than its pointer
    (
        &[(op::TYPE_POINTER, &[5, 6, 1]), (op::VARIABLE, &[5, 6, 7])],
        Some(TypeFault::BadType(5)),
    ),
    // a function type with a result
    (&[(op::TYPE_FUNCTION, &[5, 1])], Some(TypeFault::BadType(4))),
    // a result type that is defined later
    (
        &[(op::UNDEF, &[5, 6]), (op::TYPE_VOID, &[5])],
        Some(TypeFault::BadType(4)),
    ),
    // a word of type OpTypeBool
    (
        &[(op::CONSTANT, &[3, 5, 1])],
        Some(TypeFault::BadConstant(4)),
    ),
    // a constant of no type
    (
        &[(op::CONSTANT, &[7, 5, 1])],
        Some(TypeFault::BadConstant(4)),
    ),
    // a composite that names itself
    (
        &[
            (op::TYPE_STRUCT, &[5, 1]),
            (op::CONSTANT_COMPOSITE, &[5, 6, 6]),
        ],
        Some(TypeFault::BadConstant(5)),
    ),
    // one part for two components
    (
        &[
            (op::TYPE_VECTOR, &[5, 1, 2]),
            (op::CONSTANT_COMPOSITE, &[5, 6, 4]),
        ],
        Some(TypeFault::BadConstant(5)),
    ),
    // a part of the other signedness
    (
        &[
            (op::TYPE_VECTOR, &[5, 2, 2]),
            (op::CONSTANT_COMPOSITE, &[5, 6, 4, 4]),
        ],
        Some(TypeFault::BadConstant(5)),
    ),
    // a null of no data
    (
        &[(op::TYPE_VOID, &[5]), (op::CONSTANT_NULL, &[5, 6])],
        Some(TypeFault::BadConstant(5)),
    ),
    // OpBitcast of constants
    (
        &[(op::SPEC_CONSTANT_OP, &[1, 5, op::BITCAST as u32, 4])],
        Some(TypeFault::BadConstant(4)),
    ),
    // a choice of an object of another type
    (
        &[
            (op::CONSTANT_TRUE, &[3, 5]),
            (op::SPEC_CONSTANT_OP, &[2, 6, op::SELECT as u32, 5, 4, 4]),
        ],
        Some(TypeFault::BadConstant(5)),
    ),
    // 4,096 words, parts that fit, and integers of both kinds
    (
        &[
            (op::CONSTANT, &[2, 5, 4096]),
            (op::TYPE_ARRAY, &[6, 1, 5]),
            (op::TYPE_VECTOR, &[7, 1, 2]),
            (op::CONSTANT_COMPOSITE, &[7, 8, 4, 4]),
            (op::SPEC_CONSTANT_OP, &[2, 9, op::I_ADD as u32, 4, 5]),
        ],
        None,
    ),
];

/// What is answered for a module, which has no more instructions than a module that is read.
pub fn answer(rt: &HostRuntime, words: &Words) -> Result<Result<Ids, TypeFault>, Fail> {
    if words.insts.len() > MODULE_WORDS {
        return Err(Fail::new("a long listing"));
    }
    Ok(ids_of(rt.alloc(), words))
}

/// The ids of a module by its words.
pub fn sound_ids(rt: &HostRuntime, words: &[u32]) -> Result<Ids, Fail> {
    let module = read_module(rt.alloc(), words)?;
    Ok(answer(rt, &module)??)
}

#[test]
fn the_first_fault_of_ids_types_and_constants(rt: HostRuntime) -> Result<(), Fail> {
    for (listing, fault) in CASES {
        let mut words = list_of(rt.alloc(), TYPES, 12)?;
        words.insts.append(list_of(rt.alloc(), listing, 12)?.insts)?;
        assert_eq!(rt; answer(&rt, &words)?.err(), fault, "of {listing:?}");
    }
    Ok(())
}

#[test]
fn the_eleven_ids_of_a_vertex_module(rt: HostRuntime) -> Result<(), Fail> {
    let ids = sound_ids(&rt, &POINT)?;
    assert!(rt; matches!(ids.at(0), Meaning::Absent));
    assert!(rt; matches!(ids.at(1), Meaning::Shape(Shape::Void)));
    assert!(rt; matches!(ids.at(2), Meaning::Shape(Shape::Function)));
    assert!(rt; matches!(ids.at(3), Meaning::Shape(Shape::Int { signed: true })));
    assert!(rt;
        matches!(
            ids.at(4),
            Meaning::Shape(Shape::IntVector {
                comps: 4,
                signed: true
            })
        )
    );
    assert!(rt;
        matches!(
            ids.at(5),
            Meaning::Shape(Shape::Pointer { class: 3, to: 4 })
        )
    );
    assert!(rt; matches!(ids.at(6), Meaning::Variable { ty: 5, class: 3 }));
    assert!(rt; matches!(ids.at(7), Meaning::Constant { ty: 3 }));
    assert!(rt; matches!(ids.at(8), Meaning::Constant { ty: 3 }));
    assert!(rt; matches!(ids.at(9), Meaning::Constant { ty: 4 }));
    assert!(rt; matches!(ids.at(10), Meaning::Other));
    assert!(rt; matches!(ids.at(11), Meaning::Label));
    Ok(())
}

#[test]
fn definitions_and_sizes_of_a_vertex_module(rt: HostRuntime) -> Result<(), Fail> {
    let ids = sound_ids(&rt, &POINT)?;
    let places = [
        (0, None),
        (1, Some(4)),
        (6, Some(9)),
        (9, Some(12)),
        (11, Some(14)),
        (12, None),
        (u32::MAX, None),
    ];
    for (id, place) in places {
        assert_eq!(rt; ids.place(id), place, "of {id}");
    }
    for (id, size) in [(0, 0), (1, 0), (3, 1), (4, 4), (5, 0), (9, 0), (12, 0)] {
        assert_eq!(rt; ids.size(id), size, "of {id}");
    }
    Ok(())
}

#[test]
fn ids_of_few_instructions_under_a_great_bound(rt: HostRuntime) -> Result<(), Fail> {
    let far: Listing = &[
        (op::TYPE_INT, &[65535, 32, 1]),
        (op::TYPE_VECTOR, &[40000, 65535, 3]),
    ];
    let ids = answer(&rt, &list_of(rt.alloc(), far, 65536)?)??;
    assert_eq!(rt; ids.place(65535), Some(0));
    assert_eq!(rt; ids.place(40000), Some(1));
    assert_eq!(rt; ids.place(1), None);
    assert_eq!(rt; ids.size(40000), 3);
    Ok(())
}

#[test]
fn all_ids_of_the_samples_mean_something(rt: HostRuntime) -> Result<(), Fail> {
    let samples: [(&[u32], u32); 5] = [
        (&POINT, 12),
        (&ATTRIBUTE, 12),
        (&NUMBER, 9),
        (&QUOTIENT, 11),
        (&UNIFORM_QUOTIENT, 17),
    ];
    for (words, bound) in samples {
        let ids = sound_ids(&rt, words)?;
        assert!(rt; matches!(ids.at(0), Meaning::Absent));
        for id in 1..bound {
            assert!(rt; !matches!(ids.at(id), Meaning::Absent));
        }
    }
    Ok(())
}

#[test]
fn a_structure_keeps_its_members(rt: HostRuntime) -> Result<(), Fail> {
    let ids = sound_ids(&rt, &UNIFORM_QUOTIENT)?;
    let Meaning::Shape(Shape::Struct { members }) = ids.at(10) else {
        return Err(Fail::new("no structure"));
    };
    assert_eq!(rt; members.list.as_slice(), [3].as_slice());
    assert!(rt; matches!(ids.at(16), Meaning::Value { ty: 3 }));
    Ok(())
}

/// So many instructions with the opcode: after its first, each has these words, its number from 1 on, and these.
fn numbered(
    alloc: Global,
    count: u32,
    op: u16,
    front: &[u32],
    back: &[u32],
) -> Result<Words, AllocError> {
    let mut insts = Items::new(alloc);
    for place in 0..count {
        let mut words = Items::from_slice(alloc, front)?;
        words.push(place + 1)?;
        words.append(Items::from_slice(alloc, back)?)?;
        insts.push(Inst { op, words })?;
    }
    Ok(Words {
        bound: 8_190,
        insts,
    })
}

// After the five words of the header a module has at most 16,379.

#[test]
fn the_most_instructions(rt: HostRuntime) -> Result<(), Fail> {
    let mut insts = Items::new(rt.alloc());
    for _ in 0..16_379 {
        let words = Items::new(rt.alloc());
        insts.push(Inst {
            op: op::FUNCTION_END,
            words,
        })?;
    }
    let ids = answer(&rt, &Words { bound: 1, insts })??;
    assert!(rt; matches!(ids.at(1), Meaning::Absent));
    Ok(())
}

#[test]
fn the_most_types(rt: HostRuntime) -> Result<(), Fail> {
    let words = numbered(rt.alloc(), 8_189, op::TYPE_VOID, &[], &[])?;
    let ids = answer(&rt, &words)??;
    assert!(rt; matches!(ids.at(8_189), Meaning::Shape(Shape::Void)));
    assert!(rt; matches!(ids.at(8_190), Meaning::Absent));
    Ok(())
}

#[test]
fn the_most_decorations_with_a_word(rt: HostRuntime) -> Result<(), Fail> {
    let stride = [decoration::ARRAY_STRIDE, 12];
    let words = numbered(rt.alloc(), 4_094, op::DECORATE, &[], &stride)?;
    let ids = answer(&rt, &words)??;
    assert_eq!(rt; ids.stride(4_094), Some(12));
    assert_eq!(rt; ids.stride(4_095), None);
    Ok(())
}

#[test]
fn the_most_members_with_an_offset(rt: HostRuntime) -> Result<(), Fail> {
    let offset = [decoration::OFFSET, 12];
    let words = numbered(rt.alloc(), 3_275, op::MEMBER_DECORATE, &[7], &offset)?;
    let ids = answer(&rt, &words)??;
    assert_eq!(rt; ids.offset(7, 3_275), Some(12));
    assert_eq!(rt; ids.offset(7, 3_276), None);
    Ok(())
}
