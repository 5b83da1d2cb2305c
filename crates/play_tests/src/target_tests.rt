//! What draws leave on targets, in plays of whole traces.

use crate::row_tests::{PLAY, PLAY_SECOND, prints};
use crate::samples::{EIGHT, PLACED, PLAIN, PLAIN_AT_SEVEN, POINT, TEN};
use std::test::Fail;

#[test]
fn draws_each_pixel_on_a_shared_edge_once_and_no_left_over_vertex(
    rt: HostRuntime,
) -> Result<(), Fail> {
    let lines = "layout 0 0 - - - -\ndata 00000000 00000000 00000000 00000000 00000200 00000000 \
         00000000 00000000 00000000 00000200 00000000 00000000 00000200 00000000 00000000 \
         00000000 00000200 00000200 00000000 00000000 00000000 00000200 00000000 00000000\n\
         vertex 1 triangles v:4 - - - 0:0:s4:0\nprerast 1 0 0 0 0 0 cw\nfragment 1 1 0 0 - -\n\
         output 1 0 1:1 6 u1:1 - - -\npipe 0 1 2 3\ntarget 0 u1 2 2 1 1 00000000\nvbuf 0 0 0\n\
         bind 0 0 - - - -\n";
    for (draw, text) in [
        (
            "draw 0 0 0 6 0 1\n",
            "target 0 u1 2 2 1 1\n0000002a 0000002a\n0000002a 0000002a\n",
        ),
        (
            "draw 0 0 0 5 0 1\n",
            "target 0 u1 2 2 1 1\n0000002a 00000000\n00000000 00000000\n",
        ),
    ] {
        let lines = format!(in rt.alloc(); "{lines}{draw}")?;
        let modules = [PLACED, PLAIN];
        assert!(rt; prints(&rt, rt.alloc(), PLAY, modules, lines.as_str(), text)?);
    }
    Ok(())
}

#[test]
fn writes_a_sample_of_the_mask_whose_depth_is_less_once(rt: HostRuntime) -> Result<(), Fail> {
    let front = "layout 0 0 - - - -\ndata 00000080 00000080 00000004 00000000\nvertex 1 points \
         v:4 - - - 0:0:s4:0\nprerast 1 0 0 0 0 0 cw\nfragment 1 1 0 0 1:1 2:2\n";
    let back = "pipe 0 1 2 3\ntarget 0 u2 1 1 1 2 00000008\ntarget 0 z 1 1 1 2 00000005\n\
         vbuf 0 0 0\nbind 0 0 - - - 1\ndraw 0 0 0 1 0 1\ndraw 0 0 0 1 0 1\n";
    for (output, text) in [
        (
            "output 1 0 2:2 6 u2:1 - - -\n",
            "target 0 u2 1 1 1 2\n00000008,00000008/00000022,00000008\ntarget 1 z 1 1 1 2\n\
             00000005/00000004\n",
        ),
        (
            "output 1 0 2:2 10 u2:2 - - -\n",
            "target 0 u2 1 1 1 2\n00000008,00000008/00000008,fffffff7\ntarget 1 z 1 1 1 2\n\
             00000005/00000004\n",
        ),
    ] {
        let lines = format!(in rt.alloc(); "{front}{output}{back}")?;
        let modules = [PLACED, PLAIN];
        assert!(rt; prints(&rt, rt.alloc(), PLAY, modules, lines.as_str(), text)?);
    }
    Ok(())
}

#[test]
fn compares_an_equal_depth(rt: HostRuntime) -> Result<(), Fail> {
    for (call, modules, lines, text) in [
        (
            PLAY,
            [PLACED, PLAIN],
            "layout 0 0 - - - -\ndata 00000080 00000080 00000005 00000000\nvertex 1 points \
             v:4 - - - 0:0:s4:0\nprerast 1 0 0 0 0 0 cw\nfragment 1 1 0 0 1:1 -\noutput 1 0 \
             1:1 - u1:1 - - -\npipe 0 1 2 3\ntarget 0 u1 2 1 1 1 ffffffff\ntarget 0 z 2 1 1 1 \
             00000005\nvbuf 0 0 0\nbind 0 0 - - - 1\ndraw 0 0 0 1 0 1\n",
            "target 0 u1 2 1 1 1\nffffffff ffffffff\ntarget 1 z 2 1 1 1\n00000005 00000005\n",
        ),
        (
            PLAY,
            [PLACED, PLAIN],
            "layout 0 0 - - - -\ndata 00000080 00000080 00000005 00000000\nvertex 1 points \
             v:4 - - - 0:0:s4:0\nprerast 1 0 0 0 0 0 cw\nfragment 1 1 0 0 3:1 -\noutput 1 0 \
             1:1 - u1:1 - - -\npipe 0 1 2 3\ntarget 0 u1 2 1 1 1 ffffffff\ntarget 0 z 2 1 1 1 \
             00000005\nvbuf 0 0 0\nbind 0 0 - - - 1\ndraw 0 0 0 1 0 1\n",
            "target 0 u1 2 1 1 1\n0000002a ffffffff\ntarget 1 z 2 1 1 1\n00000005 00000005\n",
        ),
    ] {
        assert!(rt; prints(&rt, rt.alloc(), call, modules, lines, text)?);
    }
    Ok(())
}

#[test]
fn draws_to_the_last_place(rt: HostRuntime) -> Result<(), Fail> {
    let lines =
        "layout 0 0 - - - -\nvertex 1 points - - - -\nprerast 1 0 0 0 0 0 cw\nfragment 1 1 0 \
         0 - -\noutput 1 0 1:1 - - - - - - - - u1:1\npipe 0 1 2 3\ntarget 0 u1 2 1 1 1 \
         00000000\nbind 0 - - - - - - - 0 -\ndraw 0 0 0 1 0 1\n";
    let text = "target 0 u1 2 1 1 1\n0000002a 00000000\n";
    assert!(rt;
        prints(
            &rt,
            rt.alloc(),
            PLAY_SECOND,
            [POINT, PLAIN_AT_SEVEN],
            lines,
            text
        )?
    );
    Ok(())
}

#[test]
fn draws_to_eight_attachments_at_once(rt: HostRuntime) -> Result<(), Fail> {
    let lines =
        "layout 0 0 - - - -\nvertex 1 points - - - -\nprerast 1 0 0 0 0 0 cw\nfragment 1 1 0 \
         0 - -\noutput 1 0 1:1 - u1:1 u1:1 u1:1 u1:1 u1:1 u1:1 u1:1 u1:1\npipe 0 1 2 3\n\
         target 0 u1 2 1 1 1 ffffffff\ntarget 0 u1 2 1 1 1 ffffffff\ntarget 0 u1 2 1 1 1 \
         ffffffff\ntarget 0 u1 2 1 1 1 ffffffff\ntarget 0 u1 2 1 1 1 ffffffff\ntarget 0 u1 2 \
         1 1 1 ffffffff\ntarget 0 u1 2 1 1 1 ffffffff\ntarget 0 u1 2 1 1 1 ffffffff\nbind 0 0 \
         1 2 3 4 5 6 7 -\ndraw 0 0 0 1 0 1\n";
    let text = "target 0 u1 2 1 1 1\n00000001 ffffffff\ntarget 1 u1 2 1 1 1\n00000002 ffffffff\n\
         target 2 u1 2 1 1 1\n00000003 ffffffff\ntarget 3 u1 2 1 1 1\n00000004 ffffffff\n\
         target 4 u1 2 1 1 1\n00000005 ffffffff\ntarget 5 u1 2 1 1 1\n00000006 ffffffff\n\
         target 6 u1 2 1 1 1\n00000007 ffffffff\ntarget 7 u1 2 1 1 1\n00000008 ffffffff\n";
    assert!(rt; prints(&rt, rt.alloc(), PLAY_SECOND, [POINT, EIGHT], lines, text)?);
    Ok(())
}

#[test]
fn combines_by_each_logic_operation(rt: HostRuntime) -> Result<(), Fail> {
    let lines =
        "layout 0 0 - - - -\nvertex 1 points - - - -\nprerast 1 0 0 0 0 0 cw\nfragment 1 1 0 \
         0 - -\noutput 1 0 1:1 0 u1:1 - - - - - - -\noutput 1 0 1:1 1 u1:1 - - - - - - -\n\
         output 1 0 1:1 2 u1:1 - - - - - - -\noutput 1 0 1:1 3 u1:1 - - - - - - -\noutput 1 0 \
         1:1 4 u1:1 - - - - - - -\noutput 1 0 1:1 5 u1:1 - - - - - - -\noutput 1 0 1:1 6 u1:1 \
         - - - - - - -\noutput 1 0 1:1 7 u1:1 - - - - - - -\noutput 1 0 1:1 8 u1:1 - - - - - \
         - -\noutput 1 0 1:1 9 u1:1 - - - - - - -\noutput 1 0 1:1 10 u1:1 - - - - - - -\n\
         output 1 0 1:1 11 u1:1 - - - - - - -\noutput 1 0 1:1 12 u1:1 - - - - - - -\noutput 1 \
         0 1:1 13 u1:1 - - - - - - -\noutput 1 0 1:1 14 u1:1 - - - - - - -\noutput 1 0 1:1 15 \
         u1:1 - - - - - - -\npipe 0 1 2 3\npipe 0 1 2 4\npipe 0 1 2 5\npipe 0 1 2 6\npipe 0 1 \
         2 7\npipe 0 1 2 8\npipe 0 1 2 9\npipe 0 1 2 10\npipe 0 1 2 11\npipe 0 1 2 12\npipe 0 \
         1 2 13\npipe 0 1 2 14\npipe 0 1 2 15\npipe 0 1 2 16\npipe 0 1 2 17\npipe 0 1 2 18\n\
         target 0 u1 1 1 1 1 0000000c\ntarget 0 u1 1 1 1 1 0000000c\ntarget 0 u1 1 1 1 1 \
         0000000c\ntarget 0 u1 1 1 1 1 0000000c\ntarget 0 u1 1 1 1 1 0000000c\ntarget 0 u1 1 \
         1 1 1 0000000c\ntarget 0 u1 1 1 1 1 0000000c\ntarget 0 u1 1 1 1 1 0000000c\ntarget 0 \
         u1 1 1 1 1 0000000c\ntarget 0 u1 1 1 1 1 0000000c\ntarget 0 u1 1 1 1 1 0000000c\n\
         target 0 u1 1 1 1 1 0000000c\ntarget 0 u1 1 1 1 1 0000000c\ntarget 0 u1 1 1 1 1 \
         0000000c\ntarget 0 u1 1 1 1 1 0000000c\ntarget 0 u1 1 1 1 1 0000000c\nbind 0 0 - - - \
         - - - - -\ndraw 0 0 0 1 0 1\nbind 0 1 - - - - - - - -\ndraw 0 1 0 1 0 1\nbind 0 2 - \
         - - - - - - -\ndraw 0 2 0 1 0 1\nbind 0 3 - - - - - - - -\ndraw 0 3 0 1 0 1\nbind 0 \
         4 - - - - - - - -\ndraw 0 4 0 1 0 1\nbind 0 5 - - - - - - - -\ndraw 0 5 0 1 0 1\n\
         bind 0 6 - - - - - - - -\ndraw 0 6 0 1 0 1\nbind 0 7 - - - - - - - -\ndraw 0 7 0 1 0 \
         1\nbind 0 8 - - - - - - - -\ndraw 0 8 0 1 0 1\nbind 0 9 - - - - - - - -\ndraw 0 9 0 \
         1 0 1\nbind 0 10 - - - - - - - -\ndraw 0 10 0 1 0 1\nbind 0 11 - - - - - - - -\ndraw \
         0 11 0 1 0 1\nbind 0 12 - - - - - - - -\ndraw 0 12 0 1 0 1\nbind 0 13 - - - - - - - \
         -\ndraw 0 13 0 1 0 1\nbind 0 14 - - - - - - - -\ndraw 0 14 0 1 0 1\nbind 0 15 - - - \
         - - - - -\ndraw 0 15 0 1 0 1\n";
    let text = "target 0 u1 1 1 1 1\n00000000\ntarget 1 u1 1 1 1 1\n00000008\ntarget 2 u1 1 1 1 1\n\
         00000002\ntarget 3 u1 1 1 1 1\n0000000a\ntarget 4 u1 1 1 1 1\n00000004\ntarget 5 u1 \
         1 1 1 1\n0000000c\ntarget 6 u1 1 1 1 1\n00000006\ntarget 7 u1 1 1 1 1\n0000000e\n\
         target 8 u1 1 1 1 1\nfffffff1\ntarget 9 u1 1 1 1 1\nfffffff9\ntarget 10 u1 1 1 1 1\n\
         fffffff3\ntarget 11 u1 1 1 1 1\nfffffffb\ntarget 12 u1 1 1 1 1\nfffffff5\ntarget 13 \
         u1 1 1 1 1\nfffffffd\ntarget 14 u1 1 1 1 1\nfffffff7\ntarget 15 u1 1 1 1 1\n\
         ffffffff\n";
    assert!(rt; prints(&rt, rt.alloc(), PLAY_SECOND, [POINT, TEN], lines, text)?);
    Ok(())
}

#[test]
fn compares_depths_each_way(rt: HostRuntime) -> Result<(), Fail> {
    let lines = "layout 0 0 - - - -\ndata 00000080 00000080 ffffffff 00000000 00000180 00000080 \
         00000005 00000000 00000280 00000080 00000006 00000000\nvertex 1 points v:4 - - - \
         0:0:s4:0\nprerast 1 0 0 0 0 0 cw\noutput 1 0 1:1 - u1:1 - - -\nfragment 1 1 0 0 0:1 \
         -\nfragment 1 1 0 0 1:1 -\nfragment 1 1 0 0 2:1 -\nfragment 1 1 0 0 3:1 -\nfragment \
         1 1 0 0 4:1 -\nfragment 1 1 0 0 5:1 -\nfragment 1 1 0 0 6:1 -\nfragment 1 1 0 0 7:1 \
         -\npipe 0 1 3 2\npipe 0 1 4 2\npipe 0 1 5 2\npipe 0 1 6 2\npipe 0 1 7 2\npipe 0 1 8 \
         2\npipe 0 1 9 2\npipe 0 1 10 2\ntarget 0 u1 3 1 1 1 00000000\ntarget 0 z 3 1 1 1 \
         00000005\ntarget 0 u1 3 1 1 1 00000000\ntarget 0 z 3 1 1 1 00000005\ntarget 0 u1 3 1 \
         1 1 00000000\ntarget 0 z 3 1 1 1 00000005\ntarget 0 u1 3 1 1 1 00000000\ntarget 0 z \
         3 1 1 1 00000005\ntarget 0 u1 3 1 1 1 00000000\ntarget 0 z 3 1 1 1 00000005\ntarget \
         0 u1 3 1 1 1 00000000\ntarget 0 z 3 1 1 1 00000005\ntarget 0 u1 3 1 1 1 00000000\n\
         target 0 z 3 1 1 1 00000005\ntarget 0 u1 3 1 1 1 00000000\ntarget 0 z 3 1 1 1 \
         00000005\nvbuf 0 0 0\nbind 0 0 - - - 1\ndraw 0 0 0 3 0 1\nbind 0 2 - - - 3\ndraw 0 1 \
         0 3 0 1\nbind 0 4 - - - 5\ndraw 0 2 0 3 0 1\nbind 0 6 - - - 7\ndraw 0 3 0 3 0 1\n\
         bind 0 8 - - - 9\ndraw 0 4 0 3 0 1\nbind 0 10 - - - 11\ndraw 0 5 0 3 0 1\nbind 0 12 \
         - - - 13\ndraw 0 6 0 3 0 1\nbind 0 14 - - - 15\ndraw 0 7 0 3 0 1\n";
    let text = "target 0 u1 3 1 1 1\n00000000 00000000 00000000\ntarget 1 z 3 1 1 1\n00000005 \
         00000005 00000005\ntarget 2 u1 3 1 1 1\n0000002a 00000000 00000000\ntarget 3 z 3 1 1 \
         1\nffffffff 00000005 00000005\ntarget 4 u1 3 1 1 1\n00000000 0000002a 00000000\n\
         target 5 z 3 1 1 1\n00000005 00000005 00000005\ntarget 6 u1 3 1 1 1\n0000002a \
         0000002a 00000000\ntarget 7 z 3 1 1 1\nffffffff 00000005 00000005\ntarget 8 u1 3 1 1 \
         1\n00000000 00000000 0000002a\ntarget 9 z 3 1 1 1\n00000005 00000005 00000006\n\
         target 10 u1 3 1 1 1\n0000002a 00000000 0000002a\ntarget 11 z 3 1 1 1\nffffffff \
         00000005 00000006\ntarget 12 u1 3 1 1 1\n00000000 0000002a 0000002a\ntarget 13 z 3 1 \
         1 1\n00000005 00000005 00000006\ntarget 14 u1 3 1 1 1\n0000002a 0000002a 0000002a\n\
         target 15 z 3 1 1 1\nffffffff 00000005 00000006\n";
    assert!(rt; prints(&rt, rt.alloc(), PLAY, [PLACED, PLAIN], lines, text)?);
    Ok(())
}

#[test]
fn gives_back_what_was_there_under_two_draws_by_exclusive_or(rt: HostRuntime) -> Result<(), Fail> {
    for (call, modules, lines, text) in [
        (
            PLAY,
            [POINT, PLAIN],
            "layout 0 0 - - - -\nvertex 1 points - - - -\nprerast 1 0 0 0 0 0 cw\nfragment 1 \
             1 0 0 - -\noutput 1 0 1:1 6 u1:1 - - -\npipe 0 1 2 3\ntarget 0 u1 2 1 1 1 \
             0000000c\nbind 0 0 - - - -\ndraw 0 0 0 1 0 1\n",
            "target 0 u1 2 1 1 1\n00000026 0000000c\n",
        ),
        (
            PLAY,
            [POINT, PLAIN],
            "layout 0 0 - - - -\nvertex 1 points - - - -\nprerast 1 0 0 0 0 0 cw\nfragment 1 \
             1 0 0 - -\noutput 1 0 1:1 6 u1:1 - - -\npipe 0 1 2 3\ntarget 0 u1 2 1 1 1 \
             0000000c\nbind 0 0 - - - -\ndraw 0 0 0 1 0 1\ndraw 0 0 0 1 0 1\n",
            "target 0 u1 2 1 1 1\n0000000c 0000000c\n",
        ),
        (
            PLAY,
            [POINT, PLAIN],
            "layout 0 0 - - - -\nvertex 1 points - - - -\nprerast 1 0 0 0 0 0 cw\nfragment 1 \
             1 0 0 - -\noutput 1 0 1:1 - u1:1 - - -\npipe 0 1 2 3\ntarget 0 u1 2 1 1 1 \
             0000000c\nbind 0 0 - - - -\ndraw 0 0 0 1 0 1\ndraw 0 0 0 1 0 1\n",
            "target 0 u1 2 1 1 1\n0000002a 0000000c\n",
        ),
    ] {
        assert!(rt; prints(&rt, rt.alloc(), call, modules, lines, text)?);
    }
    Ok(())
}

#[test]
fn draws_each_view_on_its_layer(rt: HostRuntime) -> Result<(), Fail> {
    let lines =
        "layout 0 0 - - - -\nvertex 1 points - - - -\nprerast 1 0 0 5 0 0 cw\nfragment 1 1 0 \
         5 - -\noutput 1 5 1:1 - u1:1 - - -\npipe 0 1 2 3\ntarget 0 u1 2 1 3 1 00000000\nbind \
         0 0 - - - -\ndraw 0 0 0 1 0 1\n";
    let text = "target 0 u1 2 1 3 1\n0000002a 00000000\n00000000 00000000\n0000002a 00000000\n";
    assert!(rt; prints(&rt, rt.alloc(), PLAY, [POINT, PLAIN], lines, text)?);
    Ok(())
}

#[test]
fn draws_the_samples_of_the_mask(rt: HostRuntime) -> Result<(), Fail> {
    let lines =
        "layout 0 0 - - - -\nvertex 1 points - - - -\nprerast 1 0 0 0 0 0 cw\nfragment 1 1 0 \
         0 - 4:5\noutput 1 0 4:5 - u1:1 - - -\npipe 0 1 2 3\ntarget 0 u1 2 1 1 4 00000000\n\
         bind 0 0 - - - -\ndraw 0 0 0 1 0 1\n";
    let text = "target 0 u1 2 1 1 4\n0000002a/00000000/0000002a/00000000 \
         00000000/00000000/00000000/00000000\n";
    assert!(rt; prints(&rt, rt.alloc(), PLAY, [POINT, PLAIN], lines, text)?);
    Ok(())
}

#[test]
fn goes_on_past_a_depth_target_of_other_samples(rt: HostRuntime) -> Result<(), Fail> {
    for (call, modules, lines, text) in [
        (
            PLAY,
            [PLACED, PLAIN],
            "layout 0 0 - - - -\ndata 00000080 00000080 00000005 00000000\nvertex 1 points \
             v:4 - - - 0:0:s4:0\nprerast 1 0 0 0 0 0 cw\nfragment 1 1 0 0 0:1 4:3\noutput 1 0 \
             4:3 - u1:1 - - -\npipe 0 1 2 3\ntarget 0 u1 1 1 1 4 00000000\ntarget 0 z 2 1 1 1 \
             00000005\nvbuf 0 0 0\nbind 0 0 - - - 1\ndraw 0 0 0 1 0 1\n",
            "target 0 u1 1 1 1 4\n0000002a/0000002a/00000000/00000000\ntarget 1 z 2 1 1 1\n\
             00000005 00000005\n",
        ),
        (
            PLAY,
            [PLACED, PLAIN],
            "layout 0 0 - - - -\ndata 00000080 00000080 00000005 00000000\nvertex 1 points \
             v:4 - - - 0:0:s4:0\nprerast 1 0 0 0 0 0 cw\nfragment 1 1 0 0 0:1 -\noutput 1 0 \
             1:1 - u1:1 - - -\npipe 0 1 2 3\ntarget 0 u1 2 1 1 1 ffffffff\ntarget 0 z 2 1 1 1 \
             00000005\nvbuf 0 0 0\nbind 0 0 - - - 1\ndraw 0 0 0 1 0 1\n",
            "target 0 u1 2 1 1 1\nffffffff ffffffff\ntarget 1 z 2 1 1 1\n00000005 00000005\n",
        ),
    ] {
        assert!(rt; prints(&rt, rt.alloc(), call, modules, lines, text)?);
    }
    Ok(())
}

#[test]
fn writes_no_attachment_of_another_form(rt: HostRuntime) -> Result<(), Fail> {
    for (call, modules, lines, text) in [
        (
            PLAY,
            [POINT, PLAIN],
            "layout 0 0 - - - -\nvertex 1 points - - - -\nprerast 1 0 0 0 0 0 cw\nfragment 1 \
             1 0 0 - -\noutput 1 0 1:1 - u1:1 - - -\npipe 0 1 2 3\ntarget 0 s1 2 1 1 1 \
             00000000\nbind 0 0 - - - -\ndraw 0 0 0 1 0 1\n",
            "target 0 s1 2 1 1 1\n00000000 00000000\n",
        ),
        (
            PLAY,
            [POINT, PLAIN],
            "layout 0 0 - - - -\nvertex 1 points - - - -\nprerast 1 0 0 0 0 0 cw\nfragment 1 \
             1 0 0 - -\noutput 1 0 1:1 - u1:1 - - -\npipe 0 1 2 3\ntarget 0 u1 1 1 1 2 \
             00000000\nbind 0 0 - - - -\ndraw 0 0 0 1 0 1\n",
            "target 0 u1 1 1 1 2\n00000000/00000000\n",
        ),
    ] {
        assert!(rt; prints(&rt, rt.alloc(), call, modules, lines, text)?);
    }
    Ok(())
}

#[test]
fn writes_zero_for_what_the_output_lacks(rt: HostRuntime) -> Result<(), Fail> {
    for (call, modules, lines, text) in [
        (
            PLAY,
            [POINT, PLAIN],
            "layout 0 0 - - - -\nvertex 1 points - - - -\nprerast 1 0 0 0 0 0 cw\nfragment 1 \
             1 0 0 - -\noutput 1 0 1:1 - u2:3 - - -\npipe 0 1 2 3\ntarget 0 u2 2 1 1 1 \
             ffffffff\nbind 0 0 - - - -\ndraw 0 0 0 1 0 1\n",
            "target 0 u2 2 1 1 1\n0000002a,00000000 ffffffff,ffffffff\n",
        ),
        (
            PLAY,
            [POINT, PLAIN],
            "layout 0 0 - - - -\nvertex 1 points - - - -\nprerast 1 0 0 0 0 0 cw\nfragment 1 \
             1 0 0 - -\noutput 1 0 1:1 - u2:1 - - -\npipe 0 1 2 3\ntarget 0 u2 2 1 1 1 \
             ffffffff\nbind 0 0 - - - -\ndraw 0 0 0 1 0 1\n",
            "target 0 u2 2 1 1 1\n0000002a,ffffffff ffffffff,ffffffff\n",
        ),
    ] {
        assert!(rt; prints(&rt, rt.alloc(), call, modules, lines, text)?);
    }
    Ok(())
}
