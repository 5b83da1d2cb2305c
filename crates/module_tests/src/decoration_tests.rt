//! What decorations say, and the first bad one.
use crate::id_tests::{answer, sound_ids};
use sample_modules::frame::{Listing, list_of};
use sample_modules::sample_words::{QUOTIENT, UNIFORM_QUOTIENT};
use sample_modules::shader_words::ATTRIBUTE;
use spirv_model::{builtin, decoration, execution_model, op, storage_class};
use spv_types::TypeFault;
use spv_words::read_module;
use std::test::Fail;

const VERTEX: Listing = &[(
    op::ENTRY_POINT,
    &[execution_model::VERTEX, 29, 0x6e69_616d, 0],
)];

const FRAGMENT: Listing = &[(
    op::ENTRY_POINT,
    &[execution_model::FRAGMENT, 29, 0x6e69_616d, 0],
)];

/// Types, constants that can be specialized, and pointers to the structure 13 of an integer and an array.
const TYPES: Listing = &[
    (op::TYPE_INT, &[1, 32, 1]),
    (op::TYPE_INT, &[2, 32, 0]),
    (op::TYPE_BOOL, &[3]),
    (op::TYPE_VECTOR, &[4, 1, 4]),
    (op::TYPE_POINTER, &[5, storage_class::INPUT, 1]),
    (op::TYPE_POINTER, &[6, storage_class::OUTPUT, 4]),
    (op::TYPE_POINTER, &[7, storage_class::INPUT, 4]),
    (op::TYPE_POINTER, &[8, storage_class::INPUT, 3]),
    (op::SPEC_CONSTANT, &[1, 9, 0]),
    (op::SPEC_CONSTANT_TRUE, &[3, 10]),
    (op::CONSTANT, &[2, 11, 3]),
    (op::TYPE_ARRAY, &[12, 1, 11]),
    (op::TYPE_STRUCT, &[13, 1, 12]),
    (op::TYPE_POINTER, &[14, storage_class::UNIFORM, 13]),
    (op::TYPE_POINTER, &[15, storage_class::PUSH_CONSTANT, 13]),
];

/// Block, and the places of members and elements.
const LAID_OUT: Listing = &[
    (op::DECORATE, &[13, decoration::BLOCK]),
    (op::MEMBER_DECORATE, &[13, 0, decoration::OFFSET, 0]),
    (op::MEMBER_DECORATE, &[13, 1, decoration::OFFSET, 4]),
    (op::DECORATE, &[12, decoration::ARRAY_STRIDE, 4]),
];

/// The kind of the module, what stands after its types, from place 16 on, in two parts, and where decorations are bad.
const CASES: [(Listing, Listing, Listing, Option<u32>); 38] = [
    // RelaxedPrecision, which isn't listed
    (VERTEX, &[], &[(op::DECORATE, &[9, 0])], Some(16)),
    // Block with a word, Location without one, and Location on a member
    (
        VERTEX,
        &[],
        &[(op::DECORATE, &[13, decoration::BLOCK, 0])],
        Some(16),
    ),
    (
        VERTEX,
        &[],
        &[(op::DECORATE, &[20, decoration::LOCATION])],
        Some(16),
    ),
    (
        VERTEX,
        &[],
        &[(op::MEMBER_DECORATE, &[13, 0, decoration::LOCATION, 0])],
        Some(16),
    ),
    // twice on an id, and on a member
    (
        VERTEX,
        &[],
        &[
            (op::DECORATE, &[1, decoration::FLAT]),
            (op::DECORATE, &[1, decoration::FLAT]),
        ],
        Some(17),
    ),
    (
        VERTEX,
        LAID_OUT,
        &[(op::MEMBER_DECORATE, &[13, 1, decoration::OFFSET, 8])],
        Some(20),
    ),
    // one SpecId for two constants
    (
        VERTEX,
        &[],
        &[
            (op::DECORATE, &[9, decoration::SPEC_ID, 5]),
            (op::DECORATE, &[10, decoration::SPEC_ID, 5]),
        ],
        Some(17),
    ),
    (
        VERTEX,
        &[],
        &[
            (op::DECORATE, &[9, decoration::SPEC_ID, 5]),
            (op::DECORATE, &[10, decoration::SPEC_ID, 6]),
        ],
        None,
    ),
    // SpecId on OpConstant, and on OpSpecConstantOp
    (
        VERTEX,
        &[],
        &[(op::DECORATE, &[11, decoration::SPEC_ID, 0])],
        Some(16),
    ),
    (
        VERTEX,
        &[],
        &[
            (op::DECORATE, &[20, decoration::SPEC_ID, 0]),
            (op::SPEC_CONSTANT_OP, &[1, 20, op::S_NEGATE as u32, 9]),
        ],
        Some(16),
    ),
    // numbers that are out of range, and the last that aren't
    (
        VERTEX,
        &[],
        &[(op::DECORATE, &[20, decoration::LOCATION, 8])],
        Some(16),
    ),
    (
        VERTEX,
        &[],
        &[(op::DECORATE, &[20, decoration::DESCRIPTOR_SET, 4])],
        Some(16),
    ),
    (
        VERTEX,
        &[],
        &[(op::DECORATE, &[20, decoration::BINDING, 8])],
        Some(16),
    ),
    (
        VERTEX,
        &[],
        &[
            (op::DECORATE, &[20, decoration::LOCATION, 7]),
            (op::DECORATE, &[20, decoration::DESCRIPTOR_SET, 3]),
            (op::DECORATE, &[20, decoration::BINDING, 7]),
        ],
        None,
    ),
    // an input with neither or both of Location and BuiltIn, and one with either
    (
        VERTEX,
        &[],
        &[(op::VARIABLE, &[5, 20, storage_class::INPUT])],
        Some(16),
    ),
    (
        VERTEX,
        &[],
        &[
            (op::DECORATE, &[20, decoration::LOCATION, 0]),
            (
                op::DECORATE,
                &[20, decoration::BUILT_IN, builtin::VERTEX_INDEX],
            ),
            (op::VARIABLE, &[5, 20, storage_class::INPUT]),
        ],
        Some(18),
    ),
    (
        VERTEX,
        &[],
        &[
            (op::DECORATE, &[20, decoration::LOCATION, 0]),
            (
                op::DECORATE,
                &[21, decoration::BUILT_IN, builtin::INSTANCE_INDEX],
            ),
            (op::VARIABLE, &[7, 20, storage_class::INPUT]),
            (op::VARIABLE, &[5, 21, storage_class::INPUT]),
        ],
        None,
    ),
    // a truth value with a Location
    (
        VERTEX,
        &[],
        &[
            (op::DECORATE, &[20, decoration::LOCATION, 0]),
            (op::VARIABLE, &[8, 20, storage_class::INPUT]),
        ],
        Some(17),
    ),
    // FragCoord and FrontFacing in a vertex and in a fragment module
    (
        VERTEX,
        &[],
        &[
            (
                op::DECORATE,
                &[20, decoration::BUILT_IN, builtin::FRAG_COORD],
            ),
            (op::VARIABLE, &[7, 20, storage_class::INPUT]),
        ],
        Some(16),
    ),
    (
        FRAGMENT,
        &[],
        &[
            (
                op::DECORATE,
                &[20, decoration::BUILT_IN, builtin::FRAG_COORD],
            ),
            (
                op::DECORATE,
                &[21, decoration::BUILT_IN, builtin::FRONT_FACING],
            ),
            (op::VARIABLE, &[7, 20, storage_class::INPUT]),
            (op::VARIABLE, &[8, 21, storage_class::INPUT]),
        ],
        None,
    ),
    // Position of a fragment module, of an input, and of an integer; VertexIndex of a type; PointSize, which isn't listed
    (
        FRAGMENT,
        &[],
        &[
            (op::DECORATE, &[20, decoration::BUILT_IN, builtin::POSITION]),
            (op::VARIABLE, &[6, 20, storage_class::OUTPUT]),
        ],
        Some(16),
    ),
    (
        VERTEX,
        &[],
        &[
            (op::DECORATE, &[20, decoration::BUILT_IN, builtin::POSITION]),
            (op::VARIABLE, &[7, 20, storage_class::INPUT]),
        ],
        Some(16),
    ),
    (
        VERTEX,
        &[],
        &[
            (op::DECORATE, &[20, decoration::BUILT_IN, builtin::POSITION]),
            (op::TYPE_POINTER, &[21, storage_class::OUTPUT, 1]),
            (op::VARIABLE, &[21, 20, storage_class::OUTPUT]),
        ],
        Some(16),
    ),
    (
        VERTEX,
        &[],
        &[(
            op::DECORATE,
            &[1, decoration::BUILT_IN, builtin::VERTEX_INDEX],
        )],
        Some(16),
    ),
    (
        VERTEX,
        &[],
        &[
            (op::DECORATE, &[20, decoration::BUILT_IN, 1]),
            (op::VARIABLE, &[5, 20, storage_class::INPUT]),
        ],
        Some(16),
    ),
    // a Uniform variable with set and binding, without a binding, and in a structure without Block
    (
        VERTEX,
        LAID_OUT,
        &[
            (op::DECORATE, &[20, decoration::DESCRIPTOR_SET, 0]),
            (op::DECORATE, &[20, decoration::BINDING, 0]),
            (op::VARIABLE, &[14, 20, storage_class::UNIFORM]),
        ],
        None,
    ),
    (
        VERTEX,
        LAID_OUT,
        &[
            (op::DECORATE, &[20, decoration::DESCRIPTOR_SET, 0]),
            (op::VARIABLE, &[14, 20, storage_class::UNIFORM]),
        ],
        Some(21),
    ),
    (
        VERTEX,
        &[],
        &[
            (op::MEMBER_DECORATE, &[13, 0, decoration::OFFSET, 0]),
            (op::MEMBER_DECORATE, &[13, 1, decoration::OFFSET, 4]),
            (op::DECORATE, &[12, decoration::ARRAY_STRIDE, 4]),
            (op::VARIABLE, &[15, 20, storage_class::PUSH_CONSTANT]),
        ],
        Some(19),
    ),
    // a PushConstant variable that is no structure, and one of a truth value
    (
        VERTEX,
        &[],
        &[
            (op::TYPE_POINTER, &[20, storage_class::PUSH_CONSTANT, 1]),
            (op::VARIABLE, &[20, 21, storage_class::PUSH_CONSTANT]),
        ],
        Some(17),
    ),
    (
        VERTEX,
        &[],
        &[
            (op::DECORATE, &[20, decoration::BLOCK]),
            (op::MEMBER_DECORATE, &[20, 0, decoration::OFFSET, 0]),
            (op::TYPE_STRUCT, &[20, 3]),
            (op::TYPE_POINTER, &[21, storage_class::PUSH_CONSTANT, 20]),
            (op::VARIABLE, &[21, 22, storage_class::PUSH_CONSTANT]),
        ],
        Some(20),
    ),
    // a member without an offset, and one with the offset 6
    (
        VERTEX,
        &[],
        &[
            (op::DECORATE, &[13, decoration::BLOCK]),
            (op::MEMBER_DECORATE, &[13, 0, decoration::OFFSET, 0]),
            (op::DECORATE, &[12, decoration::ARRAY_STRIDE, 4]),
            (op::VARIABLE, &[15, 20, storage_class::PUSH_CONSTANT]),
        ],
        Some(19),
    ),
    (
        VERTEX,
        &[],
        &[
            (op::DECORATE, &[13, decoration::BLOCK]),
            (op::MEMBER_DECORATE, &[13, 0, decoration::OFFSET, 0]),
            (op::MEMBER_DECORATE, &[13, 1, decoration::OFFSET, 6]),
            (op::DECORATE, &[12, decoration::ARRAY_STRIDE, 4]),
            (op::VARIABLE, &[15, 20, storage_class::PUSH_CONSTANT]),
        ],
        Some(20),
    ),
    // an array without a stride, and with the strides 0 and 6
    (
        VERTEX,
        &[],
        &[
            (op::DECORATE, &[13, decoration::BLOCK]),
            (op::MEMBER_DECORATE, &[13, 0, decoration::OFFSET, 0]),
            (op::MEMBER_DECORATE, &[13, 1, decoration::OFFSET, 4]),
            (op::VARIABLE, &[15, 20, storage_class::PUSH_CONSTANT]),
        ],
        Some(19),
    ),
    (
        VERTEX,
        &[],
        &[
            (op::DECORATE, &[13, decoration::BLOCK]),
            (op::MEMBER_DECORATE, &[13, 0, decoration::OFFSET, 0]),
            (op::MEMBER_DECORATE, &[13, 1, decoration::OFFSET, 4]),
            (op::DECORATE, &[12, decoration::ARRAY_STRIDE, 0]),
            (op::VARIABLE, &[15, 20, storage_class::PUSH_CONSTANT]),
        ],
        Some(20),
    ),
    (
        VERTEX,
        &[],
        &[
            (op::DECORATE, &[13, decoration::BLOCK]),
            (op::MEMBER_DECORATE, &[13, 0, decoration::OFFSET, 0]),
            (op::MEMBER_DECORATE, &[13, 1, decoration::OFFSET, 4]),
            (op::DECORATE, &[12, decoration::ARRAY_STRIDE, 6]),
            (op::VARIABLE, &[15, 20, storage_class::PUSH_CONSTANT]),
        ],
        Some(20),
    ),
    // two Uniform variables in one slot
    (
        VERTEX,
        LAID_OUT,
        &[
            (op::DECORATE, &[20, decoration::DESCRIPTOR_SET, 1]),
            (op::DECORATE, &[20, decoration::BINDING, 2]),
            (op::DECORATE, &[21, decoration::DESCRIPTOR_SET, 1]),
            (op::DECORATE, &[21, decoration::BINDING, 2]),
            (op::VARIABLE, &[14, 20, storage_class::UNIFORM]),
            (op::VARIABLE, &[14, 21, storage_class::UNIFORM]),
        ],
        Some(25),
    ),
    // two PushConstant variables
    (
        VERTEX,
        LAID_OUT,
        &[
            (op::VARIABLE, &[15, 20, storage_class::PUSH_CONSTANT]),
            (op::VARIABLE, &[15, 21, storage_class::PUSH_CONSTANT]),
        ],
        Some(21),
    ),
    // two positions
    (
        VERTEX,
        &[],
        &[
            (op::DECORATE, &[20, decoration::BUILT_IN, builtin::POSITION]),
            (op::DECORATE, &[21, decoration::BUILT_IN, builtin::POSITION]),
            (op::VARIABLE, &[6, 20, storage_class::OUTPUT]),
            (op::VARIABLE, &[6, 21, storage_class::OUTPUT]),
        ],
        Some(19),
    ),
];

#[test]
fn the_first_bad_decoration(rt: HostRuntime) -> Result<(), Fail> {
    for (kind, front, rest, place) in CASES {
        let mut words = list_of(rt.alloc(), kind, 30)?;
        words.insts.append(list_of(rt.alloc(), TYPES, 30)?.insts)?;
        words.insts.append(list_of(rt.alloc(), front, 30)?.insts)?;
        words.insts.append(list_of(rt.alloc(), rest, 30)?.insts)?;
        let fault = place.map(TypeFault::BadDecoration);
        assert_eq!(rt; answer(&rt, &words)?.err(), fault, "of {rest:?}");
    }
    Ok(())
}

#[test]
fn a_fault_of_types_before_a_bad_decoration_comes_first(rt: HostRuntime) -> Result<(), Fail> {
    let width: Listing = &[(op::TYPE_INT, &[1, 64, 1])];
    let decoration: Listing = &[(op::DECORATE, &[1, 0])];
    let mut words = list_of(rt.alloc(), width, 30)?;
    words
        .insts
        .append(list_of(rt.alloc(), decoration, 30)?.insts)?;
    assert_eq!(rt; answer(&rt, &words)?.err(), Some(TypeFault::BadType(0)));
    let mut words = list_of(rt.alloc(), decoration, 30)?;
    words.insts.append(list_of(rt.alloc(), width, 30)?.insts)?;
    assert_eq!(rt;
        answer(&rt, &words)?.err(),
        Some(TypeFault::BadDecoration(0))
    );
    Ok(())
}

#[test]
fn what_decorations_say_of_the_samples(rt: HostRuntime) -> Result<(), Fail> {
    let ids = sound_ids(&rt, &ATTRIBUTE)?;
    assert_eq!(rt; ids.built_in(6), Some(builtin::POSITION));
    assert_eq!(rt; ids.location(6), None);
    assert_eq!(rt; ids.built_in(8), None);
    assert_eq!(rt; ids.location(8), Some(0));
    let ids = sound_ids(&rt, &QUOTIENT)?;
    assert_eq!(rt; ids.spec_id(9), Some(0));
    assert_eq!(rt; ids.spec_id(6), None);
    assert_eq!(rt; ids.location(5), Some(0));
    let ids = sound_ids(&rt, &UNIFORM_QUOTIENT)?;
    assert_eq!(rt; ids.spec_id(9), Some(0));
    assert_eq!(rt; ids.slot(12), Some((0, 0)));
    assert_eq!(rt; ids.slot(5), None);
    assert_eq!(rt; ids.offset(10, 0), Some(0));
    assert_eq!(rt; ids.offset(10, 1), None);
    assert_eq!(rt; ids.stride(10), None);
    Ok(())
}

#[test]
fn slots_offsets_and_strides(rt: HostRuntime) -> Result<(), Fail> {
    let mut words = list_of(rt.alloc(), TYPES, 30)?;
    let slot: Listing = &[
        (op::DECORATE, &[20, decoration::BINDING, 7]),
        (op::DECORATE, &[20, decoration::DESCRIPTOR_SET, 3]),
    ];
    words.insts.append(list_of(rt.alloc(), slot, 30)?.insts)?;
    words
        .insts
        .append(list_of(rt.alloc(), LAID_OUT, 30)?.insts)?;
    let ids = answer(&rt, &words)??;
    assert_eq!(rt; ids.slot(20), Some((3, 7)));
    assert_eq!(rt; ids.offset(13, 0), Some(0));
    assert_eq!(rt; ids.offset(13, 1), Some(4));
    assert_eq!(rt; ids.stride(12), Some(4));
    Ok(())
}

#[test]
fn an_id_is_flat_where_it_is_decorated_so(rt: HostRuntime) -> Result<(), Fail> {
    let mut words = read_module(rt.alloc(), &ATTRIBUTE)?;
    let flat: Listing = &[(op::DECORATE, &[6, decoration::FLAT])];
    words.insts.append(list_of(rt.alloc(), flat, 12)?.insts)?;
    let ids = answer(&rt, &words)??;
    assert!(rt; ids.is_flat(6));
    assert!(rt; !ids.is_flat(8));
    assert!(rt; !ids.is_flat(12));
    Ok(())
}
