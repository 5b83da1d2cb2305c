//! What a recorder draws with.
ghost use Rattle.std.specs.Prelude.{◌≡◌, ◌+◌, ◌<◌, ◌≤◌, length, slice_set};
ghost use Rattle.draw_model.specs.TargetWords.{words_set};
ghost use Rattle.trace_model.specs.Playing.{after_step, dynamic_at, first_dynamic};
ghost use Rattle.gpl_play.specs.Steps.{HasPlaces};

use draw_model::Dynamic;
use limits::{
    ATTACHMENTS, DESCRIPTOR_BINDINGS, DESCRIPTOR_SETS, MAX_SIDE, PUSH_WORDS, VERTEX_BINDINGS,
};
use trace_model::limit::RECORDERS;
use trace_model::whole::Step;

/// What a recorder begins with.
pub fn first_dynamic() -> Dynamic
    ensures { result ≡ first_dynamic }
{
    Dynamic {
        push: [0; PUSH_WORDS as usize],
        vertex: [None; VERTEX_BINDINGS],
        uniforms: [[None; DESCRIPTOR_BINDINGS]; DESCRIPTOR_SETS],
        scissor: [0, 0, MAX_SIDE, MAX_SIDE],
        colour: [None; ATTACHMENTS],
        depth: None,
    }
}

/// Takes a line of the recorder; a draw changes nothing.
#[tactic(auto, unfolding(trace_model::specs::Playing::after_step))]
fn take_step(dynamic: &mut Dynamic, step: &Step)
    requires { HasPlaces step.now }
    ensures { dynamic.new ≡ after_step dynamic.old step.now }
{
    match step {
        Step::Push { at, words } => push_words(dynamic, *at, words.as_slice()),
        Step::Vbuf { slot, buffer } => dynamic.vertex[usize::from(*slot)] = *buffer,
        Step::Ubuf {
            set,
            binding,
            buffer,
        } => dynamic.uniforms[usize::from(*set)][usize::from(*binding)] = *buffer,
        Step::Scissor { rect } => dynamic.scissor = *rect,
        Step::Bind { colour, depth } => {
            dynamic.colour = *colour;
            dynamic.depth = *depth;
        }
        Step::Draw { .. } => {}
    }
}

/// Takes a line of one of the recorders.
pub fn take_line(dynamics: &mut [Dynamic; RECORDERS], recorder: u8, step: &Step)
    requires recorder { recorder < RECORDERS }
    requires places { HasPlaces step.now }
    ensures { dynamics.new ≡ slice_set dynamics.old recorder
        (after_step (dynamic_at dynamics.old recorder) step.now) }
{
    take_step(&mut dynamics[usize::from(recorder)], step);
}

/// What a recorder draws with.
pub fn dynamic_of(dynamics: &[Dynamic; RECORDERS], recorder: u8) -> &Dynamic
    requires { recorder < RECORDERS }
    ensures { result.now ≡ dynamic_at dynamics.now recorder }
{
    &dynamics[usize::from(recorder)]
}

/// Puts in push constants from a place on.
fn push_words(dynamic: &mut Dynamic, at: u8, words: &[u32])
    requires { at + length words.now ≤ PUSH_WORDS }
    ensures { dynamic.new
        ≡ record dynamic.old { push = words_set at words.now dynamic.old.push } }
{
    for i in 0..words.len() {
        dynamic.push[usize::from(at) + i] = words[i];
    }
}
