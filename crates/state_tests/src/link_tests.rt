//! The first rule that a link breaks.
use crate::parts::{point_fragment, point_output, point_prerast, point_vertex};
use fragment_lib::FragmentLib;
use limits::{DESCRIPTOR_SETS, LOCATIONS};
use link_rules::{Libs, link};
use output_lib::OutputLib;
use prerast_lib::PrerastLib;
use state_model::{FragmentPart, Iface, Layout, PrerastPart, Rule};
use std::alloc::{AllocError, Global};
use std::test::Fail;
use vertex_lib::VertexLib;

const NO_SLOTS: Iface = Iface {
    slots: [None; LOCATIONS],
};

fn layout(independent: bool, sets: [Option<u8>; DESCRIPTOR_SETS]) -> Layout {
    Layout {
        independent,
        push_words: 0,
        sets,
    }
}

fn prerast(layout: Layout) -> PrerastLib {
    let part = PrerastPart {
        layout,
        ..point_prerast()
    };
    PrerastLib::new(part, NO_SLOTS, NO_SLOTS)
}

fn fragment(layout: Layout) -> FragmentLib {
    let part = FragmentPart {
        layout,
        ..point_fragment()
    };
    FragmentLib::new(part, NO_SLOTS, NO_SLOTS)
}

fn libs(
    alloc: Global,
    vertex_count: usize,
    of_fragment: Layout,
    of_prerast: Layout,
) -> Result<Libs, AllocError> {
    let mut vertices = Vec::new(alloc);
    for _ in 0..vertex_count {
        vertices.push(VertexLib::new(point_vertex()))?;
    }
    Ok(Libs {
        vertex: vertices,
        prerast: vec![in alloc; prerast(of_prerast)]?,
        fragment: vec![in alloc; fragment(of_fragment)]?,
        output: vec![in alloc; OutputLib::new(point_output())]?,
    })
}

#[test]
fn layouts_and_numbers(rt: HostRuntime) -> Result<(), Fail> {
    let first = layout(true, [Some(1), None, None, None]);
    let second = layout(true, [None, Some(1), None, None]);
    let bound = layout(false, [Some(1), None, None, None]);
    let bare = layout(false, [None; DESCRIPTOR_SETS]);
    let cases = [
        (1, first, second, Ok(())),
        (1, first, bound, Err(Rule::L4)),
        (1, bound, bare, Err(Rule::L5)),
        (2, bare, bare, Err(Rule::L2)),
        (0, bare, bare, Err(Rule::L1)),
    ];
    for (vertex_count, of_fragment, of_prerast, answer) in cases {
        let given = libs(rt.alloc(), vertex_count, of_fragment, of_prerast)?;
        assert!(rt; link(&given, false) == answer);
        assert!(rt; link(&given, true) == answer);
    }
    Ok(())
}
