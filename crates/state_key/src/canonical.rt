//! The canonical form of a state.
ghost use Rattle.std.specs.Prelude.{◌≡◌, ◌<◌, IfSome, map};
ghost use Rattle.std.specs.Option.{option_map};
ghost use Rattle.state_model.specs.Lawful.{IsLawful, IsSpecValues, AllPresent, IsEntry};
ghost use Rattle.state_model.specs.Canonical.{canonical, canonical_entries, canonical_vertex, canonical_prerast, canonical_fragment, canonical_output, if_declared, is_declared, entry_rank, without_copy, IsCanonicalOf, IsTidy};
ghost use Rattle.state_key.specs.AllDeclared.{KeepsTidy};

use crate::tidy::is_named;
use limits::{ENTRIES, VERTEX_BINDINGS};
use state_model::vulkan::{CULL_MODE_NONE, LOGIC_OP_COPY};
use state_model::{
    Entry, FragmentPart, OutputPart, PrerastPart, SpecValues, State, Topology, VertexPart,
};

/// The canonical form of a lawful state whose vertex module declares the specialization constants `vs_ids` and whose
/// fragment module declares `fs_ids`.
pub fn canon(state: &State, vs_ids: &[u32], fs_ids: &[u32]) -> State
    requires { IsLawful state.now }
    ensures value { result ≡ canonical vs_ids.now fs_ids.now state.now }
    ensures form { IsCanonicalOf vs_ids.now fs_ids.now state.now result }
    ensures lawful { IsLawful result }
    ensures tidy { IsTidy result }
    ensures unchanged { KeepsTidy vs_ids.now fs_ids.now state.now result }
{
    canonical_state(state, vs_ids, fs_ids)
}

#[tactic(auto, unfolding(state_model::specs::Canonical::canonical))]
fn canonical_state(state: &State, vs_ids: &[u32], fs_ids: &[u32]) -> State
    requires { IsLawful state.now }
    ensures { result ≡ canonical vs_ids.now fs_ids.now state.now }
{
    State {
        vertex: canonical_vertex(&state.vertex),
        prerast: canonical_prerast(&state.prerast, state.vertex.topology, vs_ids),
        fragment: canonical_fragment(&state.fragment, fs_ids),
        output: state.output.map(canonical_output),
    }
}

fn canonical_vertex(v: &VertexPart) -> VertexPart
    ensures { result ≡ canonical_vertex v.now }
{
    let mut bindings = [None; VERTEX_BINDINGS];
    for number in 0..VERTEX_BINDINGS {
        if is_named(&v.attributes, number) {
            bindings[number] = v.bindings[number];
        }
    }
    VertexPart { bindings, ..*v }
}

fn canonical_prerast(p: &PrerastPart, topology: Topology, ids: &[u32]) -> PrerastPart
    requires { IsSpecValues p.now.entries }
    ensures { result ≡ canonical_prerast ids.now topology p.now }
{
    let entries = canonical_entries(&p.entries, ids);
    match topology {
        Topology::Points => PrerastPart {
            cull: CULL_MODE_NONE,
            ccw: false,
            entries,
            ..*p
        },
        Topology::Triangles => PrerastPart { entries, ..*p },
    }
}

fn canonical_fragment(fragment: &Option<FragmentPart>, ids: &[u32]) -> Option<FragmentPart>
    requires { IfSome fragment.now (λ f. IsSpecValues f.entries) }
    ensures { result ≡ option_map (canonical_fragment ids.now) fragment.now }
{
    match fragment {
        Some(f) => Some(FragmentPart {
            multisample: None,
            entries: canonical_entries(&f.entries, ids),
            ..*f
        }),
        None => None,
    }
}

fn canonical_output(o: OutputPart) -> OutputPart
    ensures { result ≡ canonical_output o }
{
    OutputPart {
        logic: o.logic.filter(|op| *op != LOGIC_OP_COPY),
        ..o
    }
}

fn canonical_entries(v: &SpecValues, ids: &[u32]) -> SpecValues
    requires { IsSpecValues v.now }
    ensures { result ≡ canonical_entries ids.now v.now }
{
    let mut entries = declared_entries(&v.entries, ids);
    entries.sort_unstable_by_key(|entry| entry_rank(*entry));
    SpecValues { entries }
}

fn declared_entries(entries: &[Option<Entry>; ENTRIES], ids: &[u32]) -> [Option<Entry>; ENTRIES]
    ensures { result ≡ map (if_declared ids.now) entries.now }
{
    let mut kept = [None; ENTRIES];
    for i in 0..ENTRIES {
        kept[i] = if_declared(entries[i], ids);
    }
    kept
}

fn if_declared(entry: Option<Entry>, ids: &[u32]) -> Option<Entry>
    ensures { result ≡ if_declared ids.now entry }
{
    match entry {
        Some(e) if is_declared(ids, e.id) => entry,
        _ => None,
    }
}

fn is_declared(ids: &[u32], id: u32) -> bool
    ensures { result ≡ is_declared ids.now id }
{
    ids.iter().any(|x| *x == id)
}

fn entry_rank(entry: Option<Entry>) -> u64
    ensures { result ≡ entry_rank entry }
{
    match entry {
        Some(e) => u64::from(e.id),
        None => 1 << 32,
    }
}
