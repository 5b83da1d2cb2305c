//! What the four libraries answer: what is fetched, assembled, covered, compared and stored.
ghost use Rattle.state_model.specs.Lawful.{IsVertexPart};

use fragment_lib::depth_passes;
use limits::{LOCATIONS, VERTEX_BINDINGS};
use output_lib::{logic, store_pixel};
use prerast_lib::{assemble, covers};
use sqlite_items::Items;
use state_model::{Attribute, Buffers, Topology, VertexBinding, VertexPart};
use std::test::Fail;
use vertex_lib::VertexLib;

// Location 3 reads three words from word 1 on of each instance's two words in binding 1.
fn part() -> VertexPart
    ensures { IsVertexPart result }
{
    let mut bindings = [None; VERTEX_BINDINGS];
    bindings[1] = Some(VertexBinding {
        stride: 2,
        per_instance: true,
    });
    let mut attributes = [None; LOCATIONS];
    attributes[3] = Some(Attribute {
        binding: 1,
        comps: 3,
        signed: false,
        offset: 1,
    });
    VertexPart {
        retain: false,
        topology: Topology::Points,
        bindings,
        attributes,
    }
}

#[test]
fn reads_by_instance_up_to_the_end(rt: HostRuntime) -> Result<(), Fail> {
    let mut list = Items::new(rt.alloc());
    list.push(Items::from_slice(rt.alloc(), &[10, 11, 12, 13, 14])?)?;
    let buffers = Buffers { list };
    let library = VertexLib::new(part());
    assert_eq!(rt;
        library.fetch(&buffers, &[None, Some(0), None, None], 3, 9, 1),
        [13, 14, 0, 0]
    );
    assert_eq!(rt;
        library.fetch(&buffers, &[None, Some(1), None, None], 3, 9, 1),
        [0; 4]
    );
    assert_eq!(rt;
        library.fetch(&buffers, &[Some(0); VERTEX_BINDINGS], 2, 0, 0),
        [0; 4]
    );
    Ok(())
}

// Two triangles with an edge in common, on which the centres of two of the four pixels lie.
const LOW: [[u32; 4]; 3] = [[0, 0, 0, 0], [512, 0, 0, 0], [0, 512, 0, 0]];

const HIGH: [[u32; 4]; 3] = [[512, 0, 0, 0], [512, 512, 0, 0], [0, 512, 0, 0]];

#[test]
fn a_shared_edge_is_drawn_once(rt: HostRuntime) {
    for x in 0u32..2 {
        for y in 0u32..2 {
            let low = covers(Topology::Triangles, &LOW, x, y);
            let high = covers(Topology::Triangles, &HIGH, x, y);
            assert!(rt; low != high, "pixel {x} {y}");
        }
    }
}

#[test]
fn whole_primitives(rt: HostRuntime) {
    assert_eq!(rt; assemble(Topology::Triangles, 8, 1), Some(3));
    assert_eq!(rt; assemble(Topology::Triangles, 8, 2), None);
    assert_eq!(rt; assemble(Topology::Points, 1, 0), Some(0));
}

// Never, less, equal, less or equal, greater, not equal, greater or equal, always.
const OF_GREATEST_WITH_LEAST: [bool; 8] = [false, false, false, false, true, true, true, true];

const OF_LEAST_WITH_GREATEST: [bool; 8] = [false, true, false, true, false, true, false, true];

#[test]
fn depths_are_signed(rt: HostRuntime) {
    for compare in 0u8..8 {
        let greater = depth_passes(compare, 0x7fff_ffff, 0x8000_0000);
        assert_eq!(rt;
            greater,
            OF_GREATEST_WITH_LEAST[usize::from(compare)],
            "comparison {compare}"
        );
        let less = depth_passes(compare, 0x8000_0000, 0x7fff_ffff);
        assert_eq!(rt;
            less,
            OF_LEAST_WITH_GREATEST[usize::from(compare)],
            "comparison {compare}"
        );
    }
}

// Of 1100 and 1010, in the order of `VkLogicOp`.
const RESULTS: [u32; 16] = [
    0,
    0b1000,
    0b0100,
    0b1100,
    0b0010,
    0b1010,
    0b0110,
    0b1110,
    0xffff_fff1,
    0xffff_fff9,
    0xffff_fff5,
    0xffff_fffd,
    0xffff_fff3,
    0xffff_fffb,
    0xffff_fff7,
    0xffff_ffff,
];

#[test]
fn each_logic_operation(rt: HostRuntime) {
    for op in 0u8..16 {
        assert_eq!(rt;
            logic(op, 0b1100, 0b1010),
            RESULTS[usize::from(op)],
            "operation {op}"
        );
    }
}

#[test]
fn copies_under_a_mask(rt: HostRuntime) {
    assert_eq!(rt; store_pixel(Some(3), 5, [1, 2, 3, 4], [9; 4]), [1, 9, 3, 9]);
    assert_eq!(rt; store_pixel(None, 15, [1, 2, 3, 4], [9; 4]), [1, 2, 3, 4]);
}
