//! The fragment output library: logic operations and write masks.
#![tactic(auto)]

ghost use Rattle.std.specs.Prelude.{◌≡◌, ◌<◌, ◌≤◌, if◌then◌else◌};
ghost use Rattle.std.specs.Option.{ForSome};
ghost use Rattle.draw_model.specs.Pixel.{has_bit, logic_result, stored_pixel, written_component};

use limits::COMPONENTS;
pub use state_model::OutputPart;
use state_model::vulkan::{
    LOGIC_OP_AND, LOGIC_OP_AND_INVERTED, LOGIC_OP_AND_REVERSE, LOGIC_OP_CLEAR, LOGIC_OP_COPY,
    LOGIC_OP_COPY_INVERTED, LOGIC_OP_EQUIVALENT, LOGIC_OP_INVERT, LOGIC_OP_NAND, LOGIC_OP_NO_OP,
    LOGIC_OP_NOR, LOGIC_OP_OR, LOGIC_OP_OR_INVERTED, LOGIC_OP_OR_REVERSE, LOGIC_OP_SET,
    LOGIC_OP_XOR,
};

/// A fragment output interface library.
#[derive(Clone, Copy, Debug, PartialEq, Eq)]
pub struct OutputLib {
    /// The state that it has.
    pub part: OutputPart,
}

impl OutputLib {
    /// The library with this part.
    pub fn new(part: OutputPart) -> OutputLib
        ensures { result.part ≡ part }
    {
        OutputLib { part }
    }
}

/// The logic operation of the source `s` and the destination `d` (Vulkan, "Logical Operations"). `op` is one of the
/// `LOGIC_OP`s of `state_model::vulkan`.
pub fn logic(op: u8, s: u32, d: u32) -> u32
    requires { op ≤ LOGIC_OP_SET }
    ensures { result ≡ logic_result op s d }
{
    match op {
        LOGIC_OP_CLEAR => 0,
        LOGIC_OP_AND => s & d,
        LOGIC_OP_AND_REVERSE => s & !d,
        LOGIC_OP_COPY => s,
        LOGIC_OP_AND_INVERTED => !s & d,
        LOGIC_OP_NO_OP => d,
        LOGIC_OP_XOR => s ^ d,
        LOGIC_OP_OR => s | d,
        LOGIC_OP_NOR => !(s | d),
        LOGIC_OP_EQUIVALENT => !(s ^ d),
        LOGIC_OP_INVERT => !d,
        LOGIC_OP_OR_REVERSE => s | !d,
        LOGIC_OP_COPY_INVERTED => !s,
        LOGIC_OP_OR_INVERTED => !s | d,
        LOGIC_OP_NAND => !(s & d),
        _ => u32::MAX,
    }
}

// What is written for one component: without an operation the source.
fn written_word(op: Option<u8>, s: u32, d: u32) -> u32
    requires { ForSome op (λ op. op ≤ LOGIC_OP_SET) }
    ensures { result ≡ written_component op s d }
{
    match op {
        Some(op) => logic(op, s, d),
        None => s,
    }
}

/// Component i of a pixel after the write of `s` over `d`, where bit i of `mask` is set (1 R, 2 G, 4 B, 8 A). No `op` is COPY.
pub fn store_component(op: Option<u8>, mask: u8, i: usize, s: u32, d: u32) -> u32
    requires op { ForSome op (λ op. op ≤ LOGIC_OP_SET) }
    requires within { i < COMPONENTS }
    ensures { result ≡ (if has_bit mask i then written_component op s d else d) }
{
    if (mask >> i) % 2 == 1 {
        written_word(op, s, d)
    } else {
        d
    }
}

/// The pixel `d` after the write of `s`: component i changes where bit i of `mask` is set (1 R, 2 G, 4 B, 8 A). No `op`
/// is COPY.
pub fn store_pixel(
    op: Option<u8>,
    mask: u8,
    s: [u32; COMPONENTS],
    d: [u32; COMPONENTS],
) -> [u32; COMPONENTS]
    requires { ForSome op (λ op. op ≤ LOGIC_OP_SET) }
    ensures { result ≡ stored_pixel op mask s d }
{
    let mut pixel = [0; COMPONENTS];
    for i in 0..COMPONENTS {
        pixel[i] = store_component(op, mask, i, s[i], d[i]);
    }
    pixel
}
