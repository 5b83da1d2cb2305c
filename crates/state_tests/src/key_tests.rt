//! Lawful states at each limit, canonical forms and keys.
use crate::parts::{point_fragment, point_output, point_prerast, point_vertex};
use limits::{ATTACHMENTS, KEY_WORDS, LOCATIONS, VERTEX_BINDINGS};
use state_key::{
    Attachment, Attribute, Depth, Entry, FragmentPart, Lawful, Multisample, OutputPart, State,
    VertexBinding, VertexPart, canon, is_tidy, key_of, state_of,
};

// Points, vertex module 0, fragment module 1, all four parts retained, one attachment.
fn point_state() -> State {
    State {
        vertex: point_vertex(),
        prerast: point_prerast(),
        fragment: Some(point_fragment()),
        output: Some(point_output()),
    }
}

fn with_binding(stride: u32) -> State {
    let mut state = point_state();
    state.vertex.bindings[0] = Some(VertexBinding {
        stride,
        per_instance: false,
    });
    state
}

fn with_attribute(binding: u8, comps: u8, offset: u32) -> State {
    let mut state = point_state();
    let bound = VertexBinding {
        stride: 0,
        per_instance: false,
    };
    let mut attributes = [None; LOCATIONS];
    attributes[0] = Some(Attribute {
        binding,
        comps,
        signed: false,
        offset,
    });
    state.vertex = VertexPart {
        bindings: [Some(bound); VERTEX_BINDINGS],
        attributes,
        ..state.vertex
    };
    state
}

fn with_push_words(push_words: u8) -> State {
    let mut state = point_state();
    state.prerast.layout.push_words = push_words;
    state
}

fn with_module(module: u32) -> State {
    let mut state = point_state();
    state.prerast.module = module;
    state
}

fn with_cull(cull: u8) -> State {
    let mut state = point_state();
    state.prerast.cull = cull;
    state
}

fn with_fragment(module: u32, compare: u8) -> State {
    let mut state = point_state();
    state.fragment = state.fragment.map(|f| FragmentPart {
        module,
        depth: Some(Depth {
            compare,
            write: true,
        }),
        ..f
    });
    state
}

fn with_view_mask(view_mask: u8) -> State {
    let mut state = point_state();
    state.prerast.view_mask = view_mask;
    state.fragment = state.fragment.map(|f| FragmentPart { view_mask, ..f });
    state.output = state.output.map(|o| OutputPart { view_mask, ..o });
    state
}

fn with_output(samples: u8, mask: u8, op: u8, attachment: Attachment) -> State {
    let mut state = point_state();
    let mut attachments = [None; ATTACHMENTS];
    attachments[7] = Some(attachment);
    state.output = state.output.map(|o| OutputPart {
        multisample: Multisample { samples, mask },
        logic: Some(op),
        attachments,
        ..o
    });
    state
}

fn with_samples(samples: u8, mask: u8) -> State {
    let attachment = Attachment {
        format: 1,
        write_mask: 1,
    };
    with_output(samples, mask, 0, attachment)
}

fn with_logic(op: u8) -> State {
    let attachment = Attachment {
        format: 1,
        write_mask: 1,
    };
    with_output(1, 1, op, attachment)
}

fn with_attachment(format: u8, write_mask: u8) -> State {
    with_output(1, 1, 0, Attachment { format, write_mask })
}

fn with_ids(first: u32, last: u32) -> State {
    let mut state = point_state();
    state.prerast.entries.entries[0] = Some(Entry {
        id: first,
        value: 0,
    });
    state.prerast.entries.entries[15] = Some(Entry { id: last, value: 0 });
    state
}

#[test]
fn each_number_of_the_vertex_side_ends_at_its_limit(rt: HostRuntime) {
    for (state, lawful) in [
        (with_binding(1024), true),
        (with_binding(1025), false),
        (with_attribute(3, 1, 1023), true),
        (with_attribute(4, 1, 1023), false),
        (with_attribute(3, 1, 1024), false),
        (with_attribute(3, 0, 1023), false),
        (with_attribute(3, 4, 1023), true),
        (with_attribute(3, 5, 1023), false),
        (with_push_words(32), true),
        (with_push_words(33), false),
        (with_module(63), true),
        (with_module(64), false),
        (with_cull(3), true),
        (with_cull(4), false),
        (with_ids(1, 2), true),
        (with_ids(2, 2), false),
    ] {
        assert_eq!(rt; state.lawful(), lawful);
    }
}

#[test]
fn each_number_of_the_fragment_side_ends_at_its_limit(rt: HostRuntime) {
    for (state, lawful) in [
        (with_fragment(63, 7), true),
        (with_fragment(64, 7), false),
        (with_fragment(63, 8), false),
        (with_view_mask(15), true),
        (with_view_mask(16), false),
        (with_samples(1, 1), true),
        (with_samples(1, 2), false),
        (with_samples(2, 3), true),
        (with_samples(2, 4), false),
        (with_samples(3, 1), false),
        (with_samples(4, 15), true),
        (with_samples(4, 16), false),
        (with_samples(8, 1), false),
        (with_samples(0, 0), false),
        (with_logic(15), true),
        (with_logic(16), false),
        (with_attachment(0, 0), false),
        (with_attachment(4, 15), true),
        (with_attachment(5, 1), true),
        (with_attachment(5, 2), false),
        (with_attachment(8, 15), true),
        (with_attachment(8, 16), false),
        (with_attachment(9, 1), false),
    ] {
        assert_eq!(rt; state.lawful(), lawful);
    }
}

#[test]
fn the_key_of_the_point_state(rt: HostRuntime) {
    let state = point_state();
    assert!(rt; state.lawful());
    assert!(rt; is_tidy(&state));
    assert!(rt; canon(&state, &[7], &[]) == state);
    let mut words = [0; KEY_WORDS];
    words[0] = 3840;
    words[1] = 8589934592;
    words[19] = 17;
    words[22] = 17;
    assert!(rt; key_of(&state) == words);
    assert!(rt; state_of(&words) == Some(state));
    words[23] = 1;
    assert!(rt; state_of(&words) == None);
}

// What is done without a logic operation is COPY, 3, and no other one.
#[test]
fn copy_is_no_logic_operation(rt: HostRuntime) {
    for op in 0u8..16 {
        let state = with_logic(op);
        assert_eq!(rt; is_tidy(&state), op != 3, "operation {op}");
    }
}
