//! The parts of one pipeline of points, with one attachment.

use limits::{ATTACHMENTS, DESCRIPTOR_SETS, ENTRIES, LOCATIONS, VERTEX_BINDINGS};
use state_model::{
    Attachment, FragmentPart, Layout, Multisample, OutputPart, PrerastPart, SpecValues, Topology,
    VertexPart,
};

/// The layout with nothing in it.
pub fn empty_layout() -> Layout {
    Layout {
        independent: false,
        push_words: 0,
        sets: [None; DESCRIPTOR_SETS],
    }
}

/// No specialization entries.
pub fn no_entries() -> SpecValues {
    SpecValues {
        entries: [None; ENTRIES],
    }
}

/// The vertex part of points, retained.
pub fn point_vertex() -> VertexPart {
    VertexPart {
        retain: true,
        topology: Topology::Points,
        bindings: [None; VERTEX_BINDINGS],
        attributes: [None; LOCATIONS],
    }
}

/// The pre-rasterization part with vertex module 0, retained.
pub fn point_prerast() -> PrerastPart {
    PrerastPart {
        retain: true,
        module: 0,
        layout: empty_layout(),
        view_mask: 0,
        discard: false,
        cull: 0,
        ccw: false,
        entries: no_entries(),
    }
}

/// The fragment part with fragment module 1, retained.
pub fn point_fragment() -> FragmentPart {
    FragmentPart {
        retain: true,
        module: 1,
        layout: empty_layout(),
        view_mask: 0,
        depth: None,
        multisample: None,
        entries: no_entries(),
    }
}

/// The output part with one attachment, retained.
pub fn point_output() -> OutputPart {
    let mut attachments = [None; ATTACHMENTS];
    attachments[0] = Some(Attachment {
        format: 1,
        write_mask: 1,
    });
    OutputPart {
        retain: true,
        view_mask: 0,
        multisample: Multisample {
            samples: 1,
            mask: 1,
        },
        logic: None,
        attachments,
    }
}
