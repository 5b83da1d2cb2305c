//! The test for lawful states.
ghost use Rattle.std.specs.Prelude.{◌≡◌, ◌↔◌, ℕ, ◌<◌, IsTrue, IsSome, IfSome, length};
ghost use Rattle.std.specs.List.{AllPairs};
ghost use Rattle.state_key.specs.Distinct.{DiffersFromEarlier};
ghost use Rattle.state_model.specs.Lawful.{AllPresent, present_at, IsVertexBinding, IsAttribute, IsLayout, IsEntry, HaveDifferentIds, IsSpecValues, IsDepth, IsMultisample, IsAttachment, BindingsAreThere, IsVertexPart, IsPrerastPart, IsFragmentPart, IsOutputPart, Accord, IsLawful, IsViewMask, MultisamplesAccord};

use limits::{
    COMPONENTS, DESCRIPTOR_BINDINGS, MAX_OFFSET, MAX_STRIDE, MODULES, PUSH_WORDS, VERTEX_BINDINGS,
};
use state_model::format::{FORMAT_R32_UINT, FORMAT_R32G32B32A32_SINT};
use state_model::vulkan::{
    COMPARE_OP_ALWAYS, CULL_MODE_FRONT_AND_BACK, LOGIC_OP_SET, SAMPLE_COUNT_1, SAMPLE_COUNT_2,
    SAMPLE_COUNT_4,
};
use state_model::{
    Attachment, Attribute, Entry, FragmentPart, Layout, Multisample, OutputPart, PrerastPart,
    SpecValues, State, VIEWS, VertexBinding, VertexPart,
};

/// What can be lawful.
pub trait Lawful {
    /// What it is to be lawful.
    ghost Law: { Self → Type 0 };

    /// Whether it is lawful; a state is where every field is in its range and the parts accord with each other.
    fn lawful(&self) -> bool
        ensures { IsTrue result ↔ Law self.now };
}

impl Lawful for State {
    ghost Law = { λ s. IsLawful s };

    fn lawful(&self) -> bool {
        is_vertex_part(&self.vertex)
            && is_prerast_part(&self.prerast)
            && self.fragment.as_ref().is_none_or(is_fragment_part)
            && self.output.as_ref().is_none_or(is_output_part)
            && accords(self)
    }
}

fn is_vertex_part(v: &VertexPart) -> bool
    ensures { IsTrue result ↔ IsVertexPart v.now }
{
    v.bindings
        .iter()
        .all(|b| b.is_none_or(|b| b.stride <= MAX_STRIDE))
        && v.attributes.iter().all(|a| a.is_none_or(is_attribute))
        && bindings_are_there(v)
}

fn is_attribute(a: Attribute) -> bool
    ensures { IsTrue result ↔ IsAttribute a }
{
    usize::from(a.binding) < VERTEX_BINDINGS
        && 0 < a.comps
        && usize::from(a.comps) <= COMPONENTS
        && a.offset <= MAX_OFFSET
}

fn bindings_are_there(v: &VertexPart) -> bool
    ensures { IsTrue result ↔ BindingsAreThere v.now }
{
    let bindings = &v.bindings;
    v.attributes
        .iter()
        .all(|a| a.is_none_or(|a| has_binding(bindings, a.binding)))
}

fn has_binding(bindings: &[Option<VertexBinding>; VERTEX_BINDINGS], number: u8) -> bool
    ensures { IsTrue result ↔ IsSome (present_at bindings.now number) }
{
    bindings
        .get(usize::from(number))
        .copied()
        .flatten()
        .is_some()
}

fn is_prerast_part(p: &PrerastPart) -> bool
    ensures { IsTrue result ↔ IsPrerastPart p.now }
{
    p.module < MODULES
        && is_layout(&p.layout)
        && is_view_mask(p.view_mask)
        && p.cull <= CULL_MODE_FRONT_AND_BACK
        && are_spec_values(&p.entries)
}

fn is_fragment_part(f: &FragmentPart) -> bool
    ensures { IsTrue result ↔ IsFragmentPart f.now }
{
    f.module < MODULES
        && is_layout(&f.layout)
        && is_view_mask(f.view_mask)
        && f.depth.is_none_or(|d| d.compare <= COMPARE_OP_ALWAYS)
        && f.multisample.is_none_or(is_multisample)
        && are_spec_values(&f.entries)
}

fn is_output_part(o: &OutputPart) -> bool
    ensures { IsTrue result ↔ IsOutputPart o.now }
{
    is_view_mask(o.view_mask)
        && is_multisample(o.multisample)
        && o.logic.is_none_or(|op| op <= LOGIC_OP_SET)
        && o.attachments.iter().all(|a| a.is_none_or(is_attachment))
}

fn is_view_mask(mask: u8) -> bool
    ensures { IsTrue result ↔ IsViewMask mask }
{
    mask < 1 << VIEWS
}

fn is_layout(l: &Layout) -> bool
    ensures { IsTrue result ↔ IsLayout l.now }
{
    l.push_words <= PUSH_WORDS
        && l.sets.iter().all(|set| set.is_none_or(|mask| u32::from(mask)
            < 1 << DESCRIPTOR_BINDINGS))
}

fn is_multisample(m: Multisample) -> bool
    ensures { IsTrue result ↔ IsMultisample m }
{
    (m.samples == SAMPLE_COUNT_1 || m.samples == SAMPLE_COUNT_2 || m.samples == SAMPLE_COUNT_4)
        && u32::from(m.mask) < 1 << m.samples
}

fn is_attachment(a: Attachment) -> bool
    ensures { IsTrue result ↔ IsAttachment a }
{
    FORMAT_R32_UINT <= a.format
        && a.format <= FORMAT_R32G32B32A32_SINT
        && u32::from(a.write_mask) < 1 << ((a.format - FORMAT_R32_UINT) % COMPONENTS as u8 + 1)
}

fn are_spec_values(v: &SpecValues) -> bool
    ensures { IsTrue result ↔ IsSpecValues v.now }
{
    v.entries.iter().all(|entry| entry.is_none_or(is_entry)) && are_distinct(&v.entries)
}

// Any two words are an entry: the range is that of the type.
fn is_entry(e: Entry) -> bool
    ensures { IsTrue result ↔ IsEntry e }
{
    let Entry { id: _, value: _ } = e;
    true
}

fn are_distinct(entries: &[Option<Entry>]) -> bool
    ensures { IsTrue result ↔ AllPairs HaveDifferentIds entries.now }
{
    for i in 0..entries.len() {
        if !differs_from_earlier(entries, i) {
            return false;
        }
    }
    true
}

fn differs_from_earlier(entries: &[Option<Entry>], i: usize) -> bool
    requires { i < length entries.now }
    ensures { IsTrue result ↔ DiffersFromEarlier entries.now i }
{
    let entry = entries[i];
    entries[..i].iter().all(|e| have_different_ids(*e, entry))
}

fn have_different_ids(a: Option<Entry>, b: Option<Entry>) -> bool
    ensures { IsTrue result ↔ HaveDifferentIds a b }
{
    match (a, b) {
        (Some(a), Some(b)) => a.id != b.id,
        _ => true,
    }
}

fn accords(s: &State) -> bool
    ensures { IsTrue result ↔ Accord s.now }
{
    let discard = s.prerast.discard;
    let views = s.prerast.view_mask;
    discard == s.fragment.is_none()
        && discard == s.output.is_none()
        && s.fragment.is_none_or(|f| f.view_mask == views)
        && s.output.is_none_or(|o| o.view_mask == views)
        && multisamples_accord(s)
}

fn multisamples_accord(s: &State) -> bool
    ensures { IsTrue result ↔ MultisamplesAccord s.now.fragment s.now.output }
{
    let (Some(fragment), Some(output)) = (&s.fragment, &s.output) else {
        return true;
    };
    fragment.multisample.is_none_or(|m| m == output.multisample)
}
