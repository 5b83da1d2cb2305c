//! The text of a trace that is played.
ghost use Rattle.std.specs.Prelude.{◌≡◌, ℕ, ◌<◌, List, [], ◌∷◌, ◌++◌, length, map, slice_get, Some, IfOk, OnOk};
ghost use Rattle.trace_model.specs.LawfulPlay.{LawfulTrace};
ghost use Rattle.trace_model.specs.PlayText as spec;
ghost use Rattle.trace_model.specs.Playing.{RecordedDraw, after_linked, draws_of};
ghost use Rattle.trace_model.specs.declared.whole.Trace as trace;
ghost use Rattle.gpl_play.specs.Plays.{Drawables, AreOf, AreLeftBy, IsDraw, IsDrawOf, IsPlayOf, drawn_by};

use crate::links::link_pipes;
use crate::recorder::{dynamic_of, first_dynamic, take_line};
use crate::state_modules::{fragment_module, module_at};
use draw_model::framebuffer::Target;
use draw_model::{DrawCall, Dynamic, Targets};
use int_device::whole_draw::draw_modules;
use spv_check::Module;
use sqlite_items::Items;
use state_model::{Buffers, Rule, State};
use std::alloc::{AllocError, Global};
use std::marker::Model;
use trace_model::whole::Step;
use trace_text::{Trace, play_text};

/// What all draws of a trace are made from.
#[derive(Drop)]
struct Objects<'a> {
    modules: &'a [Module],
    buffers: &'a Buffers,
    /// By pipe.
    links: &'a [Result<State, Rule>],
}

impl<'a> Model for Objects<'a> {
    ghost Value = { Drawables };

    ghost view = { λ o. record {
      modules = o.modules.now;
      buffers = o.buffers.now;
      links = o.links.now;
    } };
}

/// What the draws so far have left.
#[derive(Drop)]
struct Left {
    targets: Targets,
    refused: Vec<(u32, Rule)>,
}

/// The text that is due to a trace.
pub fn text_of_play(alloc: Global, trace: Trace) -> Result<Vec<u8>, AllocError>
    requires { LawfulTrace trace }
    ensures { IfOk result (λ text. text.items ≡ spec.play_text trace) }
{
    let Trace {
        modules,
        buffers,
        libs,
        pipes,
        targets,
        steps,
    } = trace;
    let links = link_pipes(alloc, modules.as_slice(), libs.as_slice(), pipes.as_slice())?;
    let objects = Objects {
        modules: modules.as_slice(),
        buffers: &buffers,
        links: links.as_slice(),
    };
    let mut left = Left {
        targets: bare_targets(alloc, targets)?,
        refused: Vec::new(alloc),
    };
    play_steps(alloc, &objects, steps.as_slice(), &mut left)?;
    play_text(alloc, &left.targets, left.refused.as_slice())
}

/// The targets, whosever they are.
fn bare_targets(alloc: Global, targets: Items<(u8, Target)>) -> Result<Targets, AllocError>
    ensures { IfOk result (λ bare. bare.list ≡ map (λ t. t.1) targets) }
{
    let mut rest = targets;
    let mut bare = Vec::new(alloc);
    while let Some((_, target)) = rest.pop() {
        bare.push(target)?;
    }
    bare.reverse();
    Ok(Targets {
        list: Items::from_vec(bare),
    })
}

/// Plays the lines of all recorders in their order.
fn play_steps(
    alloc: Global,
    objects: &Objects,
    steps: &[(u8, Step)],
    left: &mut Left,
) -> Result<(), AllocError>
    requires { IsPlayOf objects.now steps.now left.old.targets left.old.refused.items }
    ensures { (trace : trace.Trace) → AreOf trace objects.now → trace.steps ≡ steps.now
        → AreLeftBy trace [] left.old.targets left.old.refused.items
        → OnOk result (AreLeftBy trace (draws_of trace) left.new.targets left.new.refused.items) }
{
    let mut dynamics = [
        first_dynamic(),
        first_dynamic(),
        first_dynamic(),
        first_dynamic(),
    ];
    let mut number = 0;
    for (recorder, step) in steps {
        take_line(&mut dynamics, *recorder, step);
        let Step::Draw { pipe, call } = step else {
            continue;
        };
        let dynamic = dynamic_of(&dynamics, *recorder);
        play_draw(alloc, objects, number, *pipe, dynamic, call, left)?;
        number += 1;
    }
    Ok(())
}

/// Makes a draw, or notes the rule by which it is refused.
fn play_draw(
    alloc: Global,
    objects: &Objects,
    number: u32,
    pipe: u16,
    dynamic: &Dynamic,
    call: &DrawCall,
    left: &mut Left,
) -> Result<(), AllocError>
    requires { (recorder : ℕ) × IsDrawOf objects.now number
        (drawn_by recorder pipe dynamic.now call.now)
        left.old.targets left.old.refused.items }
    ensures { (trace : trace.Trace) (front : List RecordedDraw) (recorder : ℕ)
        → AreOf trace objects.now → number ≡ length front
        → AreLeftBy trace front left.old.targets left.old.refused.items
        → OnOk result (AreLeftBy trace
        (front ++ drawn_by recorder pipe dynamic.now call.now ∷ [])
        left.new.targets left.new.refused.items) }
{
    match link_at(objects.links, pipe) {
        Ok(state) => {
            draw_linked(alloc, objects, state, dynamic, call, &mut left.targets)?;
            Ok(())
        }
        Err(rule) => {
            left.refused.push((number, *rule))?;
            Ok(())
        }
    }
}

/// Makes a draw with this state and the modules as the trace gives them.
fn draw_linked(
    alloc: Global,
    objects: &Objects,
    state: &State,
    dynamic: &Dynamic,
    call: &DrawCall,
    targets: &mut Targets,
) -> Result<(), AllocError>
    requires { (trace : trace.Trace) × (AreOf trace objects.now)
        × IsDraw trace state.now dynamic.now call.now targets.old }
    ensures { (trace : trace.Trace) (recorder pipe : ℕ) → AreOf trace objects.now
        → OnOk result (targets.new ≡ after_linked trace targets.old
        (drawn_by recorder pipe dynamic.now call.now) state.now) }
{
    let vertex = module_at(objects.modules, state.prerast.module);
    let fragment = fragment_module(objects.modules, state);
    let buffers = objects.buffers;
    draw_modules(
        alloc, vertex, fragment, state, dynamic, call, buffers, targets,
    )?;
    Ok(())
}

/// What a pipe links to.
fn link_at(links: &[Result<State, Rule>], pipe: u16) -> &Result<State, Rule>
    requires { pipe < length links.now }
    ensures { slice_get links.now pipe ≡ Some result.now }
{
    &links[usize::from(pipe)]
}
