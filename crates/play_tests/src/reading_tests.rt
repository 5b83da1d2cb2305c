//! Traces are read, and the first fault of their lines told.
use crate::samples::{DRAW, PIPELINE, PLAIN, POINT, trace_of};
use check_model::CheckFault;
use draw_model::DrawCall;
use limits::TRACE_BYTES;
use spirv_model::WordsFault;
use state_model::{
    Attachment, Attribute, Depth, Entry, Layout, Multisample, OutputPart, Topology, VertexBinding,
    VertexPart,
};
use std::alloc::{AllocError, Global};
use std::test::Fail;
use trace_model::line_fault::{Cause, TraceFault};
use trace_model::whole::{Library, Step};
use trace_text::{ReadFault, Trace, read_trace};

/// Each form of line, in version 2.
const LINES: &str = "\
    data 00000001 ffffffff\n\
    layout 1 32 255 - 0 -\n\
    layout 0 0 - - - -\n\
    vertex 1 triangles v:4 i:1024 - - 7:1:s4:1023 0:0:u1:0\n\
    prerast 0 0 0 15 1 3 ccw 9=0000000a 4294967295=ffffffff\n\
    fragment 1 1 1 0 7:1 4:15\n\
    output 0 3 2:3 15 u1:1 - - - - - - s4:15\n\
    pipe 0 1 2 3 0\n\
    target 3 z 2 1 1 1 80000000\n\
    target 3 s4 1 2 2 2 0000000b\n\
    push 3 30 00000001 00000002\n\
    vbuf 3 3 0\n\
    ubuf 0 1 7 -\n\
    scissor 1 255 0 1 256\n\
    bind 3 - - - - - - - 1 0\n\
    draw 2 0 4294967295 65536 0 1\n";

/// The trace of a head, a vertex module in line 2, a fragment module in line 3, and these lines from line 4 on.
fn read_lines(alloc: Global, head: &str, lines: &str) -> Result<Trace, ReadFault> {
    match trace_of(alloc, head, [POINT, PLAIN], lines) {
        Ok(text) => read_trace(alloc, text.as_bytes()),
        Err(_) => Err(ReadFault::Memory),
    }
}

#[test]
fn objects_are_read(rt: HostRuntime) -> Result<(), Fail> {
    let trace = read_lines(rt.alloc(), "gplt 2\n", LINES)?;
    assert_eq!(rt; trace.modules.len(), 2);
    let buffer = trace.buffers.list.get(0).ok_or("no buffer")?;
    assert_eq!(rt; buffer.as_slice(), [1, 0xffff_ffff].as_slice());
    let pipe = trace.pipes.get(0).ok_or("no pipe")?;
    assert_eq!(rt; pipe.as_slice(), [0, 1, 2, 3, 0].as_slice());
    let (recorder, depth) = trace.targets.get(0).ok_or("no target")?;
    assert_eq!(rt;
        (*recorder, depth.format, depth.width, depth.samples),
        (3, 9, 2, 1)
    );
    assert_eq!(rt;
        depth.words.as_slice(),
        [0x8000_0000, 0x8000_0000].as_slice()
    );
    let (_, colour) = trace.targets.get(1).ok_or("one target")?;
    assert_eq!(rt;
        (colour.format, colour.height, colour.layers, colour.samples),
        (8, 2, 2, 2)
    );
    assert_eq!(rt; colour.words.len(), 32);
    Ok(())
}

/// What the line `vertex` says.
fn vertex_part() -> VertexPart {
    let mut bindings = [None; 4];
    bindings[0] = Some(VertexBinding {
        stride: 4,
        per_instance: false,
    });
    bindings[1] = Some(VertexBinding {
        stride: 1024,
        per_instance: true,
    });
    let mut attributes = [None; 8];
    attributes[0] = Some(Attribute {
        binding: 0,
        comps: 1,
        signed: false,
        offset: 0,
    });
    attributes[7] = Some(Attribute {
        binding: 1,
        comps: 4,
        signed: true,
        offset: 1023,
    });
    VertexPart {
        retain: true,
        topology: Topology::Triangles,
        bindings,
        attributes,
    }
}

/// What the line `output` says.
fn output_part() -> OutputPart {
    let mut attachments = [None; 8];
    attachments[0] = Some(Attachment {
        format: 1,
        write_mask: 1,
    });
    attachments[7] = Some(Attachment {
        format: 8,
        write_mask: 15,
    });
    OutputPart {
        retain: false,
        view_mask: 3,
        multisample: Multisample {
            samples: 2,
            mask: 3,
        },
        logic: Some(15),
        attachments,
    }
}

#[test]
fn libraries_are_read(rt: HostRuntime) -> Result<(), Fail> {
    let trace = read_lines(rt.alloc(), "gplt 2\n", LINES)?;
    assert_eq!(rt; trace.libs.len(), 4);
    assert_eq!(rt;
        trace.libs.get(0).copied(),
        Some(Library::Vertex(vertex_part()))
    );
    assert_eq!(rt;
        trace.libs.get(3).copied(),
        Some(Library::Output(output_part()))
    );
    Ok(())
}

#[test]
fn a_vertex_shader_is_read_with_its_layout(rt: HostRuntime) -> Result<(), Fail> {
    let trace = read_lines(rt.alloc(), "gplt 2\n", LINES)?;
    let Some(Library::Prerast(part)) = trace.libs.get(1).copied() else {
        return Err("no shader".into());
    };
    let layout = Layout {
        independent: true,
        push_words: 32,
        sets: [Some(255), None, Some(0), None],
    };
    assert_eq!(rt; part.layout, layout);
    assert_eq!(rt; (part.module, part.view_mask, part.cull), (0, 15, 3));
    assert_eq!(rt; (part.retain, part.discard, part.ccw), (false, true, true));
    let last = Entry {
        id: 4_294_967_295,
        value: 0xffff_ffff,
    };
    assert_eq!(rt; part.entries.entries[1], Some(last));
    assert_eq!(rt; part.entries.entries[2], None);
    Ok(())
}

#[test]
fn a_fragment_shader_is_read(rt: HostRuntime) -> Result<(), Fail> {
    let trace = read_lines(rt.alloc(), "gplt 2\n", LINES)?;
    let Some(Library::Fragment(part)) = trace.libs.get(2).copied() else {
        return Err("no shader".into());
    };
    let depth = Depth {
        compare: 7,
        write: true,
    };
    let multisample = Multisample {
        samples: 4,
        mask: 15,
    };
    assert_eq!(rt; (part.module, part.layout.push_words), (1, 0));
    assert_eq!(rt; part.depth, Some(depth));
    assert_eq!(rt; part.multisample, Some(multisample));
    Ok(())
}

#[test]
fn buffers_are_bound_in_order(rt: HostRuntime) -> Result<(), Fail> {
    let trace = read_lines(rt.alloc(), "gplt 2\n", LINES)?;
    let steps = trace.steps.as_slice();
    assert_eq!(rt; steps.len(), 6);
    let Some((3, Step::Push { at: 30, words })) = steps.get(0) else {
        return Err("no push".into());
    };
    assert_eq!(rt; words.as_slice(), [1, 2].as_slice());
    let Some((3, Step::Vbuf { slot: 3, buffer })) = steps.get(1) else {
        return Err("no vbuf".into());
    };
    assert_eq!(rt; *buffer, Some(0));
    let Some(
        (
            0,
            Step::Ubuf {
                set,
                binding,
                buffer,
            },
        ),
    ) = steps.get(2)
    else {
        return Err("no ubuf".into());
    };
    assert_eq!(rt; (*set, *binding, *buffer), (1, 7, None));
    Ok(())
}

#[test]
fn draws_are_read_in_order(rt: HostRuntime) -> Result<(), Fail> {
    let trace = read_lines(rt.alloc(), "gplt 2\n", LINES)?;
    let steps = trace.steps.as_slice();
    let Some((1, Step::Scissor { rect })) = steps.get(3) else {
        return Err("no scissor".into());
    };
    assert_eq!(rt; *rect, [255, 0, 1, 256]);
    let Some((3, Step::Bind { colour, depth })) = steps.get(4) else {
        return Err("no bind".into());
    };
    assert_eq!(rt; (colour[0], colour[7], *depth), (None, Some(1), Some(0)));
    let Some((2, Step::Draw { pipe: 0, call })) = steps.get(5) else {
        return Err("no draw".into());
    };
    let expected = DrawCall {
        first_vertex: 4_294_967_295,
        vertices: 65_536,
        first_instance: 0,
        instances: 1,
    };
    assert_eq!(rt; *call, expected);
    Ok(())
}

#[test]
fn version_1_has_four_attachments(rt: HostRuntime) -> Result<(), Fail> {
    let lines = format!(in rt.alloc(); "{PIPELINE}target 0 u1 2 1 1 1 00000000\n{DRAW}")?;
    let trace = read_lines(rt.alloc(), "gplt 1\n", lines.as_str())?;
    assert_eq!(rt;
        (trace.libs.len(), trace.pipes.len(), trace.steps.len()),
        (4, 1, 2)
    );
    let Some((0, Step::Bind { colour, depth })) = trace.steps.get(0) else {
        return Err("no bind".into());
    };
    assert_eq!(rt;
        (colour[0], colour[1], colour[4], *depth),
        (Some(0), None, None, None)
    );
    Ok(())
}

/// The fault of a trace of version 1 with these lines from line 4 on.
fn fault_of(alloc: Global, lines: &str) -> Option<ReadFault> {
    read_lines(alloc, "gplt 1\n", lines).err()
}

/// A cause on a line.
fn on_line(line: u32, cause: Cause) -> Option<ReadFault> {
    Some(ReadFault::Fault(TraceFault { line, cause }))
}

#[test]
fn each_cause_is_told_with_its_line(rt: HostRuntime) -> Result<(), Fail> {
    let no_header = read_trace(rt.alloc(), b"gplt 3\n").err();
    assert_eq!(rt; no_header, on_line(1, Cause::NoHeader));
    assert_eq!(rt; fault_of(rt.alloc(), "draw\n"), on_line(4, Cause::BadLine));
    assert_eq!(rt; fault_of(rt.alloc(), "data"), on_line(4, Cause::BadLine));
    let large = fault_of(rt.alloc(), "target 0 u4 256 256 4 4 00000000\n");
    assert_eq!(rt; large, on_line(4, Cause::TooMany));
    assert_eq!(rt;
        fault_of(rt.alloc(), "data\npipe 0\n"),
        on_line(5, Cause::Unknown)
    );
    let words = CheckFault::Words(WordsFault::BadHeader);
    assert_eq!(rt;
        fault_of(rt.alloc(), "code 00000000\n"),
        on_line(4, Cause::BadModule(words))
    );
    let twice = fault_of(rt.alloc(), "vertex 1 points v:4 - - - 0:0:u1:0 0:0:u1:0\n");
    assert_eq!(rt; twice, on_line(4, Cause::BadPart));
    let foreign = fault_of(
        rt.alloc(),
        "target 0 u1 1 1 1 1 00000000\nbind 1 0 - - - -\n",
    );
    assert_eq!(rt; foreign, on_line(5, Cause::ForeignTarget));
    Ok(())
}

#[test]
fn numbers_may_have_any_number_of_digits(rt: HostRuntime) -> Result<(), Fail> {
    let lines = "layout 0 0 - - - -\nprerast 1 0 99999999999999999999 0 0 0 cw\n";
    assert_eq!(rt; fault_of(rt.alloc(), lines), on_line(5, Cause::Unknown));
    Ok(())
}

/// A trace of so many bytes, three of its lines being one byte longer than the others.
fn long_text(alloc: Global, size: usize) -> Result<Vec<u8>, AllocError> {
    let mut text = Vec::new(alloc);
    text.extend_from_slice(b"gplt 1\n")?;
    for _ in 0..3 {
        text.extend_from_slice(b"scissor 0 0 0 1 10\n")?;
    }
    for _ in 0..size / 18 {
        if text.len() < size {
            text.extend_from_slice(b"scissor 0 0 0 1 1\n")?;
        }
    }
    Ok(text)
}

#[test]
fn the_longest_trace_is_read_and_no_longer_one(rt: HostRuntime) -> Result<(), Fail> {
    let mut text = long_text(rt.alloc(), TRACE_BYTES)?;
    assert_eq!(rt; text.len(), TRACE_BYTES);
    let trace = read_trace(rt.alloc(), text.as_slice())?;
    assert_eq!(rt; trace.steps.len(), 932_067);
    text.push(b'\n')?;
    let fault = read_trace(rt.alloc(), text.as_slice()).err();
    assert_eq!(rt; fault, on_line(0, Cause::TooLong));
    Ok(())
}
