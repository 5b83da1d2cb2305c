ghost use Rattle.std.specs.Prelude.{◌<◌, ◌≤◌, ◌+◌, ◌*◌, pos};
ghost use Rattle.std.specs.Int.Signed.{◌≤ℤ◌};
ghost use Rattle.limits.specs.declared.TheConstants.{MAX_SIDE};
ghost use Rattle.prerast_lib.specs.Spans.{IsSpan, IsFirst, IsEnd, HoldColumns, HoldRows};

use crate::coverage::position_of;
use limits::{COMPONENTS, MAX_SIDE, SUBPIXELS};

// The least of three.
fn least(a: i64, b: i64, c: i64) -> i64
    ensures a { result ≤ℤ a }
    ensures b { result ≤ℤ b }
    ensures c { result ≤ℤ c }
{
    let ab = if a < b { a } else { b };
    if ab < c { ab } else { c }
}

// The greatest of three.
fn greatest(a: i64, b: i64, c: i64) -> i64
    ensures a { a ≤ℤ result }
    ensures b { b ≤ℤ result }
    ensures c { c ≤ℤ result }
{
    let ab = if a < b { b } else { a };
    if ab < c { c } else { ab }
}

// The first pixel that isn't all before a place.
fn first_pixel(low: i64) -> u64
    ensures { IsFirst low result }
{
    if low <= 0 {
        0
    } else {
        low as u64 / u64::from(SUBPIXELS)
    }
}

// The first pixel that is all behind a place.
fn end_pixel(high: i64) -> u64
    ensures { IsEnd high result }
{
    if high < 0 {
        0
    } else {
        high as u64 / u64::from(SUBPIXELS) + 1
    }
}

// The pixels of a start and an extent that two places have between them.
fn span(low: i64, high: i64, start: u32, extent: u32) -> (u32, u32)
    requires { start + extent ≤ MAX_SIDE }
    ensures { IsSpan low high start extent result.0 result.1 }
{
    let end = start + extent;
    let from = within(first_pixel(low), start, end);
    let to = within(end_pixel(high), from, end);
    (from, to - from)
}

// The number, where it is between the two, else the nearer of them.
fn within(number: u64, low: u32, high: u32) -> u32
    requires { low ≤ high }
    ensures low { low ≤ result }
    ensures high { result ≤ high }
    ensures above { low < result → result ≤ number }
    ensures below { result < high → number ≤ result }
{
    if number <= u64::from(low) {
        low
    } else if number >= u64::from(high) {
        high
    } else {
        number as u32
    }
}

/// So many columns from one on, of those of a start and an extent, that hold all which a primitive with these corners covers
/// there.
pub fn columns_of(corners: &[[u32; COMPONENTS]; 3], start: u32, extent: u32) -> (u32, u32)
    requires { start + extent ≤ MAX_SIDE }
    ensures { HoldColumns corners.now start extent result.0 result.1 }
{
    let a = position_of(&corners[0]).x;
    let b = position_of(&corners[1]).x;
    let c = position_of(&corners[2]).x;
    span(least(a, b, c), greatest(a, b, c), start, extent)
}

/// The same of rows.
pub fn rows_of(corners: &[[u32; COMPONENTS]; 3], start: u32, extent: u32) -> (u32, u32)
    requires { start + extent ≤ MAX_SIDE }
    ensures { HoldRows corners.now start extent result.0 result.1 }
{
    let a = position_of(&corners[0]).y;
    let b = position_of(&corners[1]).y;
    let c = position_of(&corners[2]).y;
    span(least(a, b, c), greatest(a, b, c), start, extent)
}
