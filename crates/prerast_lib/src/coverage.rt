ghost use Rattle.std.specs.Prelude.{◌≡◌, ◌<◌, ◌↔◌, IsTrue, ◌*ℤ◌, ◌-ℤ◌, ℤ};
ghost use Rattle.prerast_lib.specs.Guarded.{IsGuarded, IsWithinBand, IsDistance, IsProduct};
ghost use Rattle.draw_model.specs.Coverage.{is_covered, corner_position, is_guarded, lies_in, point_covers, pixel_centre, edge_value, is_top_or_left, is_inside, is_inside_all, triangle_covers};

use draw_model::Position;
use limits::{COMPONENTS, GUARD_BAND, MAX_SIDE, SUBPIXELS};
use state_model::Topology;

/// Whether a primitive covers the pixel (`x`, `y`) (Vulkan, "Basic Point Rasterization", "Basic Polygon
/// Rasterization"). The corners are words x, y, z, w with x and y signed, in 1/256 pixel. For points only corner 0
/// counts. A triangle covers the pixels whose centres it holds, and those on its edges by the top-left rule. Where a corner
/// that counts is outside the guard band, and for a triangle without area, nothing is covered.
#[tactic(auto, unfolding(draw_model::specs::Coverage::is_covered))]
pub fn covers(topology: Topology, corners: &[[u32; COMPONENTS]; 3], x: u32, y: u32) -> bool
    requires x { x < MAX_SIDE }
    requires y { y < MAX_SIDE }
    ensures { result ≡ is_covered topology corners.now x y }
{
    let a = position_of(&corners[0]);
    match topology {
        Topology::Points => is_guarded(a) && point_covers(a, x, y),
        Topology::Triangles => {
            let b = position_of(&corners[1]);
            let c = position_of(&corners[2]);
            is_guarded(a)
                && is_guarded(b)
                && is_guarded(c)
                && triangle_covers(a, b, c, pixel_centre(x, y))
        }
    }
}

/// The place of a corner with these words.
pub fn position_of(words: &[u32; COMPONENTS]) -> Position
    ensures { result ≡ corner_position words.now }
{
    Position {
        x: i64::from(words[0].cast_signed()),
        y: i64::from(words[1].cast_signed()),
    }
}

/// Whether it is within the guard band.
#[tactic(auto, unfolding(draw_model::specs::Coverage::is_guarded))]
pub fn is_guarded(p: Position) -> bool
    ensures value { result ≡ is_guarded p }
    ensures fact { IsTrue result ↔ IsGuarded p }
{
    let band = i64::from(GUARD_BAND);
    -band <= p.x && p.x <= band && -band <= p.y && p.y <= band
}

fn point_covers(p: Position, x: u32, y: u32) -> bool
    requires x { x < MAX_SIDE }
    requires y { y < MAX_SIDE }
    ensures { result ≡ point_covers p x y }
{
    lies_in(p.x, x) && lies_in(p.y, y)
}

fn lies_in(z: i64, pixel: u32) -> bool
    requires { pixel < MAX_SIDE }
    ensures { result ≡ lies_in z pixel }
{
    i64::from(SUBPIXELS * pixel) <= z && z < i64::from(SUBPIXELS * (pixel + 1))
}

fn pixel_centre(x: u32, y: u32) -> Position
    requires x { x < MAX_SIDE }
    requires y { y < MAX_SIDE }
    ensures centre { result ≡ pixel_centre x y }
    ensures guarded { IsGuarded result }
{
    Position {
        x: i64::from(SUBPIXELS * x + SUBPIXELS / 2),
        y: i64::from(SUBPIXELS * y + SUBPIXELS / 2),
    }
}

// From one place within the guard band to another, along x or y.
fn distance(from: i64, to: i64) -> i64
    requires from { IsWithinBand from }
    requires to { IsWithinBand to }
    ensures value { result ≡ to -ℤ from }
    ensures bound { IsDistance result }
{
    to - from
}

fn product(a: i64, b: i64) -> i64
    requires a { IsDistance a }
    requires b { IsDistance b }
    ensures value { result ≡ a *ℤ b }
    ensures bound { IsProduct result }
{
    a * b
}

fn difference(a: i64, b: i64) -> i64
    requires a { IsProduct a }
    requires b { IsProduct b }
    ensures { result ≡ a -ℤ b }
{
    a - b
}

/// Twice the signed area of the triangle p, q, at.
#[tactic(auto, unfolding(draw_model::specs::Coverage::edge_value))]
pub fn edge_value(p: Position, q: Position, at: Position) -> i64
    requires p { IsGuarded p }
    requires q { IsGuarded q }
    requires at { IsGuarded at }
    ensures { result ≡ edge_value p q at }
{
    difference(
        product(distance(p.x, q.x), distance(p.y, at.y)),
        product(distance(p.y, q.y), distance(p.x, at.x)),
    )
}

// Whether the centres on the edge from p to q are the triangle's, by the top-left rule.
#[tactic(auto, unfolding(draw_model::specs::Coverage::is_top_or_left))]
fn is_top_or_left(p: Position, q: Position) -> bool
    ensures { result ≡ is_top_or_left p q }
{
    q.y < p.y || (q.y == p.y && p.x < q.x)
}

#[tactic(auto, unfolding(draw_model::specs::Coverage::is_inside))]
fn is_inside(at: Position, p: Position, q: Position) -> bool
    requires at { IsGuarded at }
    requires p { IsGuarded p }
    requires q { IsGuarded q }
    ensures { result ≡ is_inside at p q }
{
    let value = edge_value(p, q, at);
    0 < value || (value == 0 && is_top_or_left(p, q))
}

#[tactic(auto, unfolding(draw_model::specs::Coverage::is_inside_all))]
fn is_inside_all(at: Position, a: Position, b: Position, c: Position) -> bool
    requires at { IsGuarded at }
    requires a { IsGuarded a }
    requires b { IsGuarded b }
    requires c { IsGuarded c }
    ensures { result ≡ is_inside_all at a b c }
{
    is_inside(at, a, b) && is_inside(at, b, c) && is_inside(at, c, a)
}

#[tactic(auto, unfolding(draw_model::specs::Coverage::triangle_covers))]
fn triangle_covers(a: Position, b: Position, c: Position, at: Position) -> bool
    requires a { IsGuarded a }
    requires b { IsGuarded b }
    requires c { IsGuarded c }
    requires at { IsGuarded at }
    ensures { result ≡ triangle_covers a b c at }
{
    let area = edge_value(a, b, c);
    if 0 < area {
        is_inside_all(at, a, b, c)
    } else {
        area < 0 && is_inside_all(at, a, c, b)
    }
}
