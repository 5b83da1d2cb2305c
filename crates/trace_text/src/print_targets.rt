//! The lines of targets: each is named, and then go the rows of its layers.
ghost use Rattle.std.specs.Prelude.{◌≡◌, ◌≤◌, ◌*◌, ◌++◌, ◌∷◌, [], codes, take, drop, OnOk};
ghost use Rattle.std.specs.List.{join_by};
ghost use Rattle.draw_model.specs.TargetWords.{sample_size};
ghost use Rattle.trace_model.specs.PlayText as spec;
ghost use Rattle.trace_text.specs.Printed.{between};

use crate::digits::{push_field, push_number, push_word};
use crate::field_values::format_components;
use draw_model::framebuffer::Target;
use std::alloc::AllocError;

/// Pushes the lines of all targets, in the order of their numbers.
#[tactic(auto, unfolding(trace_model::specs::PlayText::targets_text))]
pub fn push_targets(text: &mut Vec<u8>, targets: &[Target]) -> Result<(), AllocError>
    ensures { OnOk result (text.new.items ≡ text.old.items ++ spec.targets_text targets.now) }
{
    let mut number = 0;
    let mut rest = targets;
    while let Some((target, others)) = rest.split_first() {
        push_heading(text, number, target)?;
        push_rows(text, target)?;
        number += 1;
        rest = others;
    }
    Ok(())
}

/// Pushes the line that names a target.
fn push_heading(text: &mut Vec<u8>, number: usize, target: &Target) -> Result<(), AllocError>
    ensures { OnOk result (text.new.items ≡ text.old.items ++ spec.heading_text number target.now) }
{
    text.extend_from_slice(b"target")?;
    push_number(text, number as u64)?;
    push_field(text, format_name(target.format))?;
    push_number(text, u64::from(target.width))?;
    push_number(text, u64::from(target.height))?;
    push_number(text, u64::from(target.layers))?;
    push_number(text, u64::from(target.samples))?;
    text.push(b'\n')?;
    Ok(())
}

/// The name of a format.
fn format_name(format: u8) -> &'static [u8]
    ensures { result.now ≡ spec.format_text format }
{
    match format {
        0 | 1 => b"u1",
        2 => b"u2",
        3 => b"u3",
        4 => b"u4",
        5 => b"s1",
        6 => b"s2",
        7 => b"s3",
        8 => b"s4",
        9 => b"z",
        _ => b"",
    }
}

/// Pushes the rows of all layers.
fn push_rows(text: &mut Vec<u8>, target: &Target) -> Result<(), AllocError>
    ensures { OnOk result (text.new.items ≡ text.old.items ++ spec.rows_text target.now) }
{
    let size = target.width as usize * pixel_size(target);
    let rows = row_count(target.layers, target.height);
    let mut rest = target.words.as_slice();
    for _ in 0..rows {
        let (row, after) = cut(rest, size);
        push_row(text, target, row)?;
        rest = after;
    }
    Ok(())
}

/// The rows of all layers.
fn row_count(layers: u8, height: u32) -> u64
    ensures { result ≡ layers * height }
{
    u64::from(layers) * u64::from(height)
}

/// The words of a pixel, all its samples together.
fn pixel_size(target: &Target) -> usize
    ensures is { result ≡ spec.samples_size target.now }
    ensures few { result ≤ 1020 }
{
    usize::from(target.samples) * sample_size(target)
}

/// The words of a sample.
fn sample_size(target: &Target) -> usize
    ensures is { result ≡ sample_size target.now }
    ensures few { result ≤ 4 }
{
    usize::from(format_components(target.format))
}

/// So many words, and those after them.
fn cut(words: &[u32], size: usize) -> (&[u32], &[u32])
    ensures front { result.0.now ≡ take size words.now }
    ensures back { result.1.now ≡ drop size words.now }
{
    words.split_at(size.min(words.len()))
}

/// Pushes the line of a row with these words.
fn push_row(text: &mut Vec<u8>, target: &Target, words: &[u32]) -> Result<(), AllocError>
    ensures { OnOk result (text.new.items ≡ text.old.items ++ spec.row_text target.now words.now) }
{
    let size = pixel_size(target);
    let mut rest = words;
    for x in 0..target.width {
        let (pixel, after) = cut(rest, size);
        push_between(text, b' ', x)?;
        push_pixel(text, target, pixel)?;
        rest = after;
    }
    text.push(b'\n')?;
    Ok(())
}

/// Pushes a separator, if a piece stands before.
fn push_between(text: &mut Vec<u8>, separator: u8, before: u32) -> Result<(), AllocError>
    ensures { OnOk result (text.new.items ≡ text.old.items ++ between separator before) }
{
    if before > 0 {
        text.push(separator)?;
    }
    Ok(())
}

/// Pushes the samples of a pixel.
fn push_pixel(text: &mut Vec<u8>, target: &Target, words: &[u32]) -> Result<(), AllocError>
    ensures { OnOk result (text.new.items
        ≡ text.old.items ++ spec.pixel_text target.now words.now) }
{
    let size = sample_size(target);
    let mut rest = words;
    for number in 0..target.samples {
        let (sample, after) = cut(rest, size);
        push_between(text, b'/', u32::from(number))?;
        push_sample(text, sample)?;
        rest = after;
    }
    Ok(())
}

/// Pushes the words of a sample.
fn push_sample(text: &mut Vec<u8>, words: &[u32]) -> Result<(), AllocError>
    ensures { OnOk result (text.new.items ≡ text.old.items ++ spec.sample_text words.now) }
{
    let Some((first, others)) = words.split_first() else {
        return Ok(());
    };
    push_word(text, *first)?;
    for word in others {
        text.push(b',')?;
        push_word(text, *word)?;
    }
    Ok(())
}
