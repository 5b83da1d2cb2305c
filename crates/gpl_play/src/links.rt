//! The links of a trace's pipes.
ghost use Rattle.std.specs.Prelude.{◌≡◌, map, slice_get, IfOk, OnOk};
ghost use Rattle.std.specs.List.{All, filter_map};
ghost use Rattle.link_rules.specs.Libs.{libraries};
ghost use Rattle.link_rules.specs.Parts.{HoldsLawfulParts};
ghost use Rattle.trace_model.specs.LawfulPlay.{IsLibrary};
ghost use Rattle.trace_model.specs.declared.whole.Trace as trace;
ghost use Rattle.trace_text.specs.Printed.{pipe_rules};
ghost use Rattle.gpl_play.specs.Links.{HasObjects, AreLinks, IsLinkOf, libraries_given, with_library};

use crate::state_modules::module_at;
use fragment_lib::FragmentLib;
use link_rules::{Libs, link};
use output_lib::OutputLib;
use prerast_lib::PrerastLib;
use spv_check::Module;
use sqlite_items::{Items, at};
use state_model::{Rule, State};
use std::alloc::{AllocError, Global};
use trace_model::whole::Library;
use vertex_lib::VertexLib;

/// What each pipe links to, by its number: its state, or the first rule that fails.
pub fn link_pipes(
    alloc: Global,
    modules: &[Module],
    libs: &[Library],
    pipes: &[Items<u16>],
) -> Result<Vec<Result<State, Rule>>, AllocError>
    requires { All (IsLibrary modules.now) libs.now }
    ensures { (trace : trace.Trace) → HasObjects trace modules.now libs.now pipes.now
        → IfOk result (λ links. AreLinks trace links.items) }
{
    let mut links = Vec::new(alloc);
    for pipe in pipes {
        let given = libraries_of(alloc, modules, libs, pipe.as_slice())?;
        links.push(state_of(&given))?;
    }
    Ok(links)
}

/// The rules by which each pipe isn't linked fast, and optimised.
pub fn rules_of_pipes(
    alloc: Global,
    modules: &[Module],
    libs: &[Library],
    pipes: &[Items<u16>],
) -> Result<Vec<(Option<Rule>, Option<Rule>)>, AllocError>
    requires { All (IsLibrary modules.now) libs.now }
    ensures { (trace : trace.Trace) → HasObjects trace modules.now libs.now pipes.now
        → IfOk result (λ rules. rules.items ≡ pipe_rules trace) }
{
    let mut rules = Vec::new(alloc);
    for pipe in pipes {
        let given = libraries_of(alloc, modules, libs, pipe.as_slice())?;
        rules.push((link(&given, false).err(), link(&given, true).err()))?;
    }
    Ok(rules)
}

/// The state of libraries, or the first rule that fails.
fn state_of(given: &Libs) -> Result<State, Rule>
    requires { HoldsLawfulParts (libraries given.now) }
    ensures { IsLinkOf (libraries given.now) result }
{
    link(given, false)?;
    Ok(given.state())
}

/// The libraries with these numbers, by subset.
fn libraries_of(
    alloc: Global,
    modules: &[Module],
    libs: &[Library],
    pipe: &[u16],
) -> Result<Libs, AllocError>
    requires { All (IsLibrary modules.now) libs.now }
    ensures libraries { IfOk result (λ made. libraries made
        ≡ libraries_given modules.now (filter_map (slice_get libs.now) pipe.now)) }
    ensures lawful { IfOk result (λ made. HoldsLawfulParts (libraries made)) }
{
    let mut made = Libs {
        vertex: Vec::new(alloc),
        prerast: Vec::new(alloc),
        fragment: Vec::new(alloc),
        output: Vec::new(alloc),
    };
    for number in pipe {
        let Some(library) = at(libs, usize::from(*number)) else {
            continue;
        };
        give(&mut made, modules, library)?;
    }
    Ok(made)
}

/// Gives one more library, with the interface of its module.
fn give(made: &mut Libs, modules: &[Module], library: &Library) -> Result<(), AllocError>
    requires { IsLibrary modules.now library.now }
    ensures { OnOk result (libraries made.new
        ≡ with_library modules.now (libraries made.old) library.now) }
{
    match library {
        Library::Vertex(part) => {
            made.vertex.push(VertexLib::new(*part))?;
            Ok(())
        }
        Library::Prerast(part) => {
            let shader = module_at(modules, part.module);
            let library = PrerastLib::new(*part, *shader.inputs(), *shader.outputs());
            made.prerast.push(library)?;
            Ok(())
        }
        Library::Fragment(part) => {
            let shader = module_at(modules, part.module);
            let library = FragmentLib::new(*part, *shader.inputs(), *shader.outputs());
            made.fragment.push(library)?;
            Ok(())
        }
        Library::Output(part) => {
            made.output.push(OutputLib::new(*part))?;
            Ok(())
        }
    }
}
