//! The test for tidy states: those that the canonical form leaves as they are, but for entries that no module declares.
ghost use Rattle.std.specs.Prelude.{◌≡◌, ◌↔◌, ◌<◌, ℕ, IsTrue, IsSome, IfSome, length};
ghost use Rattle.state_model.specs.Lawful.{present_at};
ghost use Rattle.state_model.specs.Canonical.{IsTidy, AreInOrder, Precedes, is_named};
ghost use Rattle.state_key.specs.Tidy.{BindingsAreNamed, IsWithoutFacing, PrecedesNext};

use limits::{LOCATIONS, VERTEX_BINDINGS};
use state_model::vulkan::{CULL_MODE_NONE, LOGIC_OP_COPY};
use state_model::{Attribute, Entry, PrerastPart, State, Topology, VertexBinding};

/// Whether the canonical form changes nothing in the state, but for entries that no module declares.
pub fn is_tidy(state: &State) -> bool
    ensures { IsTrue result ↔ IsTidy state.now }
{
    are_in_order(&state.prerast.entries.entries)
        && state.fragment.is_none_or(|f| are_in_order(&f.entries.entries)
            && f.multisample.is_none())
        && bindings_are_named(&state.vertex.bindings, &state.vertex.attributes)
        && is_without_facing(state.vertex.topology, &state.prerast)
        && state.output.is_none_or(|o| o.logic != Some(LOGIC_OP_COPY))
}

fn is_without_facing(topology: Topology, p: &PrerastPart) -> bool
    ensures { IsTrue result ↔ IsWithoutFacing topology p.now }
{
    match topology {
        Topology::Points => p.cull == CULL_MODE_NONE && !p.ccw,
        Topology::Triangles => true,
    }
}

fn are_in_order(entries: &[Option<Entry>]) -> bool
    ensures { IsTrue result ↔ AreInOrder entries.now }
{
    for i in 1..entries.len() {
        if !precedes_next(entries, i) {
            return false;
        }
    }
    true
}

fn precedes_next(entries: &[Option<Entry>], i: usize) -> bool
    requires some { 0 < i }
    requires within { i < length entries.now }
    ensures { IsTrue result ↔ PrecedesNext entries.now i }
{
    precedes(entries[i - 1], entries[i])
}

fn precedes(a: Option<Entry>, b: Option<Entry>) -> bool
    ensures { IsTrue result ↔ Precedes a b }
{
    match (a, b) {
        (Some(a), Some(b)) => a.id < b.id,
        (None, Some(_)) => false,
        (_, None) => true,
    }
}

fn bindings_are_named(
    bindings: &[Option<VertexBinding>; VERTEX_BINDINGS],
    attributes: &[Option<Attribute>; LOCATIONS],
) -> bool
    ensures { IsTrue result ↔ BindingsAreNamed bindings.now attributes.now }
{
    for number in 0..VERTEX_BINDINGS {
        if bindings[number].is_some() && !is_named(attributes, number) {
            return false;
        }
    }
    true
}

/// Whether some attribute names the binding of that number.
pub fn is_named(attributes: &[Option<Attribute>; LOCATIONS], number: usize) -> bool
    ensures { result ≡ is_named attributes.now number }
{
    attributes
        .iter()
        .any(|a| a.is_some_and(|a| usize::from(a.binding) == number))
}
