//! The rules on what the libraries hold, where there is one of each subset.
ghost use Rattle.std.specs.Prelude.{◌≡◌, ◌<◌};
ghost use Rattle.std.specs.Result.{result_err};
ghost use Rattle.state_model.specs.Lawful.{present_at};
ghost use Rattle.state_model.specs.Link.{failed_content_rule, has_unused_subset, independence_differs, layouts_disagree, view_masks_differ, multisample_differs, unfed_input, misfed_input, lacks_retained, misfits, lacks_attribute, misfits_output, disagree, differ_sets, clash, some_set, differ_multisample};

use fragment_lib::FragmentLib;
use limits::{DESCRIPTOR_SETS, LOCATIONS};
use output_lib::OutputLib;
use prerast_lib::PrerastLib;
use state_model::{Attribute, Layout, Multisample, Rule, Slot, State};
use vertex_lib::VertexLib;

/// One library of each subset; fragment and output libraries may be absent.
#[derive(Clone, Copy, Debug)]
pub struct SingleLibs {
    pub vertex: VertexLib,
    pub prerast: PrerastLib,
    pub fragment: Option<FragmentLib>,
    pub output: Option<OutputLib>,
}

ghost use Rattle.link_rules.specs.Single.{libraries_of_single, state_of_single};

/// The state that they make.
pub fn state_of_single(libs: &SingleLibs) -> State
    ensures { result ≡ state_of_single libs.now }
{
    State {
        vertex: libs.vertex.part,
        prerast: libs.prerast.part,
        fragment: libs.fragment.map(|f| f.part),
        output: libs.output.map(|o| o.part),
    }
}

/// The first rule that fails, from L3 on.
#[tactic(auto, unfolding(state_model::specs::Link::failed_content_rule, state_model::specs::Link::rule_if, state_model::specs::Link::rule_at))]
pub fn link_contents(libs: &SingleLibs, optimise: bool) -> Result<(), Rule>
    ensures { result_err result ≡ failed_content_rule (libraries_of_single libs.now) optimise }
{
    if has_unused_subset(libs) {
        return Err(Rule::L3);
    }
    if independence_differs(libs) {
        return Err(Rule::L4);
    }
    if layouts_disagree(libs) {
        return Err(Rule::L5);
    }
    if view_masks_differ(libs) {
        return Err(Rule::L6);
    }
    if multisample_differs(libs) {
        return Err(Rule::L7);
    }
    if let Some(location) = unfed_input(libs) {
        return Err(Rule::L8(location));
    }
    if let Some(location) = misfed_input(libs) {
        return Err(Rule::L9(location));
    }
    if optimise && lacks_retained(libs) {
        return Err(Rule::L10);
    }
    Ok(())
}

// The value at that place, where there is one.
fn present_at<T: Copy>(xs: &[Option<T>], at: usize) -> Option<T>
    ensures { result ≡ present_at xs.now at }
{
    xs.get(at).copied().flatten()
}

#[tactic(auto, unfolding(state_model::specs::Link::has_unused_subset))]
fn has_unused_subset(libs: &SingleLibs) -> bool
    ensures { result ≡ has_unused_subset (libraries_of_single libs.now) }
{
    libs.prerast.part.discard && (libs.fragment.is_some() || libs.output.is_some())
}

#[tactic(auto, unfolding(state_model::specs::Link::independence_differs))]
fn independence_differs(libs: &SingleLibs) -> bool
    ensures { result ≡ independence_differs (libraries_of_single libs.now) }
{
    match &libs.fragment {
        Some(fragment) => fragment.part.layout.independent != libs.prerast.part.layout.independent,
        None => false,
    }
}

#[tactic(auto, unfolding(state_model::specs::Link::layouts_disagree))]
fn layouts_disagree(libs: &SingleLibs) -> bool
    ensures { result ≡ layouts_disagree (libraries_of_single libs.now) }
{
    match &libs.fragment {
        Some(fragment) => disagree(&fragment.part.layout, &libs.prerast.part.layout),
        None => false,
    }
}

#[tactic(auto, unfolding(state_model::specs::Link::disagree))]
fn disagree(a: &Layout, b: &Layout) -> bool
    ensures { result ≡ disagree a.now b.now }
{
    match (a.independent, b.independent) {
        (false, false) => a.push_words != b.push_words || some_set_differs(a, b),
        (true, true) => a.push_words != b.push_words || some_set_clashes(a, b),
        _ => false,
    }
}

fn some_set_differs(a: &Layout, b: &Layout) -> bool
    ensures { result ≡ some_set differ_sets a.now b.now }
{
    (0..DESCRIPTOR_SETS).any(|set| differ_sets(present_at(&a.sets, set), present_at(&b.sets, set)))
}

fn some_set_clashes(a: &Layout, b: &Layout) -> bool
    ensures { result ≡ some_set clash a.now b.now }
{
    (0..DESCRIPTOR_SETS).any(|set| clash(present_at(&a.sets, set), present_at(&b.sets, set)))
}

fn differ_sets(a: Option<u8>, b: Option<u8>) -> bool
    ensures { result ≡ differ_sets a b }
{
    match (a, b) {
        (Some(a), Some(b)) => a != b,
        (None, None) => false,
        _ => true,
    }
}

fn clash(a: Option<u8>, b: Option<u8>) -> bool
    ensures { result ≡ clash a b }
{
    match (a, b) {
        (Some(a), Some(b)) => a != b,
        _ => false,
    }
}

#[tactic(auto, unfolding(state_model::specs::Link::view_masks_differ))]
fn view_masks_differ(libs: &SingleLibs) -> bool
    ensures { result ≡ view_masks_differ (libraries_of_single libs.now) }
{
    let mask = libs.prerast.part.view_mask;
    libs.fragment.is_some_and(|f| f.part.view_mask != mask)
        || libs.output.is_some_and(|o| o.part.view_mask != mask)
}

#[tactic(auto, unfolding(state_model::specs::Link::multisample_differs))]
fn multisample_differs(libs: &SingleLibs) -> bool
    ensures { result ≡ multisample_differs (libraries_of_single libs.now) }
{
    match (&libs.fragment, &libs.output) {
        (Some(fragment), Some(output)) => differ_multisample(
            fragment.part.multisample,
            output.part.multisample,
        ),
        _ => false,
    }
}

fn differ_multisample(a: Option<Multisample>, b: Multisample) -> bool
    ensures { result ≡ differ_multisample a b }
{
    match a {
        Some(a) => a.samples != b.samples || a.mask != b.mask,
        None => false,
    }
}

#[tactic(auto, unfolding(state_model::specs::Link::unfed_input))]
fn unfed_input(libs: &SingleLibs) -> Option<u8>
    ensures { result ≡ unfed_input (libraries_of_single libs.now) }
{
    let inputs = &libs.prerast.inputs.slots;
    let attributes = &libs.vertex.part.attributes;
    (0..LOCATIONS as u8).find(|l| lacks_attribute(
        present_at(inputs, usize::from(*l)),
        present_at(attributes, usize::from(*l)),
    ))
}

fn lacks_attribute(input: Option<Slot>, given: Option<Attribute>) -> bool
    ensures { result ≡ lacks_attribute input given }
{
    match (input, given) {
        (Some(input), Some(a)) => misfits(
            input,
            Slot {
                comps: a.comps,
                signed: a.signed,
            },
        ),
        (Some(_), None) => true,
        (None, _) => false,
    }
}

fn misfits(input: Slot, given: Slot) -> bool
    ensures { result ≡ misfits input given }
{
    input.signed != given.signed || given.comps < input.comps
}

#[tactic(auto, unfolding(state_model::specs::Link::misfed_input))]
fn misfed_input(libs: &SingleLibs) -> Option<u8>
    ensures { result ≡ misfed_input (libraries_of_single libs.now) }
{
    let Some(fragment) = &libs.fragment else {
        return None;
    };
    let inputs = &fragment.inputs.slots;
    let outputs = &libs.prerast.outputs.slots;
    (0..LOCATIONS as u8).find(|l| misfits_output(
        present_at(inputs, usize::from(*l)),
        present_at(outputs, usize::from(*l)),
    ))
}

fn misfits_output(input: Option<Slot>, given: Option<Slot>) -> bool
    ensures { result ≡ misfits_output input given }
{
    match (input, given) {
        (Some(input), Some(given)) => misfits(input, given),
        _ => false,
    }
}

#[tactic(auto, unfolding(state_model::specs::Link::lacks_retained))]
fn lacks_retained(libs: &SingleLibs) -> bool
    ensures { result ≡ lacks_retained (libraries_of_single libs.now) }
{
    !libs.vertex.part.retain
        || !libs.prerast.part.retain
        || libs.fragment.is_some_and(|f| !f.part.retain)
        || libs.output.is_some_and(|o| !o.part.retain)
}
