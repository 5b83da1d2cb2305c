//! The texts of a play and of links: targets, and the rules by which pipes are refused.
ghost use Rattle.std.specs.Prelude.{◌≡◌, ◌++◌, IfOk, OnOk};
ghost use Rattle.std.specs.List.{flat_map};
ghost use Rattle.std.specs.Fmt.{decimal};
ghost use Rattle.trace_model.specs.PlayText as spec;
ghost use Rattle.trace_model.specs.Playing.{final_targets, refused_draws};
ghost use Rattle.trace_model.specs.declared.whole.Trace as trace;
ghost use Rattle.trace_text.specs.Printed.{pipe_line, pipe_lines, pipe_rules};

use crate::digits::{push_decimal, push_number};
use crate::print_targets::push_targets;
use draw_model::Targets;
use state_model::Rule;
use std::alloc::{AllocError, Global};

/// What a play prints: the targets as they are after all draws, and the refused draws, each by its number over the whole
/// trace, with the rule that it breaks.
#[tactic(auto, unfolding(trace_model::specs::PlayText::play_text))]
pub fn play_text(
    alloc: Global,
    targets: &Targets,
    refused: &[(u32, Rule)],
) -> Result<Vec<u8>, AllocError>
    ensures lines { IfOk result
        (λ text. text.items ≡ spec.result_text targets.now.list refused.now) }
    ensures plays { (trace : trace.Trace) → targets.now ≡ final_targets trace
        → refused.now ≡ refused_draws trace
        → IfOk result (λ text. text.items ≡ spec.play_text trace) }
{
    let mut text = Vec::new(alloc);
    push_targets(&mut text, targets.list.as_slice())?;
    push_refusals(&mut text, refused)?;
    Ok(text)
}

/// Pushes the lines of refused draws.
fn push_refusals(text: &mut Vec<u8>, refused: &[(u32, Rule)]) -> Result<(), AllocError>
    ensures { OnOk result (text.new.items ≡ text.old.items
        ++ flat_map spec.refused_text refused.now) }
{
    for (draw, rule) in refused {
        push_refused(text, *draw, *rule)?;
    }
    Ok(())
}

/// Pushes the line of a refused draw.
fn push_refused(text: &mut Vec<u8>, draw: u32, rule: Rule) -> Result<(), AllocError>
    ensures { OnOk result (text.new.items ≡ text.old.items ++ spec.refused_text (draw, rule)) }
{
    text.extend_from_slice(b"refused")?;
    push_number(text, u64::from(draw))?;
    text.push(b' ')?;
    push_rule(text, rule)?;
    text.push(b'\n')?;
    Ok(())
}

/// Pushes a rule's name, with its location.
fn push_rule(text: &mut Vec<u8>, rule: Rule) -> Result<(), AllocError>
    ensures { OnOk result (text.new.items ≡ text.old.items ++ spec.rule_text rule) }
{
    match rule {
        Rule::L1 => text.extend_from_slice(b"L1"),
        Rule::L2 => text.extend_from_slice(b"L2"),
        Rule::L3 => text.extend_from_slice(b"L3"),
        Rule::L4 => text.extend_from_slice(b"L4"),
        Rule::L5 => text.extend_from_slice(b"L5"),
        Rule::L6 => text.extend_from_slice(b"L6"),
        Rule::L7 => text.extend_from_slice(b"L7"),
        Rule::L8(location) => push_located(text, b"L8@", location),
        Rule::L9(location) => push_located(text, b"L9@", location),
        Rule::L10 => text.extend_from_slice(b"L10"),
    }
}

fn push_located(text: &mut Vec<u8>, name: &[u8], location: u8) -> Result<(), AllocError>
    ensures { OnOk result (text.new.items ≡ text.old.items ++ (name.now ++ decimal location)) }
{
    text.extend_from_slice(name)?;
    push_decimal(text, u64::from(location))
}

/// What is printed of the links of a trace's pipes: the rule by which the fast link of each fails, and that of its optimised
/// link; `None` where it doesn't.
#[tactic(auto, using(crate::proofs::PrintedLines::links_of_rules))]
pub fn links_text(
    alloc: Global,
    links: &[(Option<Rule>, Option<Rule>)],
) -> Result<Vec<u8>, AllocError>
    ensures lines { IfOk result (λ text. text.items ≡ pipe_lines links.now) }
    ensures links { (trace : trace.Trace) → links.now ≡ pipe_rules trace
        → IfOk result (λ text. text.items ≡ spec.links_text trace) }
{
    let mut text = Vec::new(alloc);
    push_pipes(&mut text, links)?;
    Ok(text)
}

/// Pushes the lines of all pipes.
fn push_pipes(text: &mut Vec<u8>, links: &[(Option<Rule>, Option<Rule>)]) -> Result<(), AllocError>
    ensures { OnOk result (text.new.items ≡ text.old.items ++ pipe_lines links.now) }
{
    let mut pipe = 0;
    let mut rest = links;
    while let Some((link, others)) = rest.split_first() {
        let (fast, optimised) = *link;
        push_pipe(text, pipe, fast, optimised)?;
        pipe += 1;
        rest = others;
    }
    Ok(())
}

/// Pushes the line of a pipe.
fn push_pipe(
    text: &mut Vec<u8>,
    pipe: usize,
    fast: Option<Rule>,
    optimised: Option<Rule>,
) -> Result<(), AllocError>
    ensures { OnOk result (text.new.items ≡ text.old.items ++ pipe_line (pipe, (fast, optimised))) }
{
    text.extend_from_slice(b"pipe")?;
    push_number(text, pipe as u64)?;
    text.push(b' ')?;
    push_link(text, fast)?;
    text.push(b' ')?;
    push_link(text, optimised)?;
    text.push(b'\n')?;
    Ok(())
}

/// Pushes what a link came to.
fn push_link(text: &mut Vec<u8>, rule: Option<Rule>) -> Result<(), AllocError>
    ensures { OnOk result (text.new.items ≡ text.old.items ++ spec.link_text rule) }
{
    match rule {
        None => text.extend_from_slice(b"ok"),
        Some(rule) => push_rule(text, rule),
    }
}
