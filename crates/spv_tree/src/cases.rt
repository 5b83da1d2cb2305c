//! The words of an OpSwitch: the selector, the default, and then literals with their targets.
ghost use Rattle.std.specs.Prelude.{◌≡◌, ℕ, ◌==◌, ◌&&◌, ◌||◌, not, ◌∷◌, IfOk, OnOk};
ghost use Rattle.std.specs.Ordering.{nat_cmp};
ghost use Rattle.std.specs.BTreeSet.{contains};
ghost use Rattle.body_model.specs.Switches.{cases_of, literals_of, repeat, without};
ghost use Rattle.spv_tree.specs.Barred.{HasLabels, as_cases, literals, targets};

use std::alloc::{AllocError, Global};
use std::collections::BTreeSet;

/// A literal and the label where it leads.
#[derive(Clone, Copy, Drop)]
pub struct SwitchCase {
    pub literal: u32,
    pub target: u32,
}

pub fn switch_cases(alloc: Global, words: &[u32]) -> Result<Vec<SwitchCase>, AllocError>
    ensures { IfOk result (λ list. as_cases list.items ≡ cases_of words.now) }
{
    let mut list = Vec::new(alloc);
    let (_, rest) = words.split_at(words.len().min(2));
    let mut rest = rest;
    while let Some((literal, after)) = rest.split_first() {
        let Some((target, after)) = after.split_first() else {
            return Ok(list);
        };
        list.push(SwitchCase {
            literal: *literal,
            target: *target,
        })?;
        rest = after;
    }
    Ok(list)
}

/// Whether an OpSwitch with these words has a literal twice.
pub fn has_equal_literals(alloc: Global, words: &[u32]) -> Result<bool, AllocError>
    ensures { IfOk result (λ are_equal. are_equal ≡ repeat (literals_of words.now)) }
{
    let cases = switch_cases(alloc, words)?;
    let are_equal = repeat(alloc, cases.as_slice())?;
    Ok(are_equal)
}

/// Whether two cases have one literal.
fn repeat(alloc: Global, cases: &[SwitchCase]) -> Result<bool, AllocError>
    ensures { IfOk result (λ are_equal. are_equal ≡ repeat (literals cases.now)) }
{
    let mut seen = BTreeSet::new(alloc);
    for case in cases {
        if !see(&mut seen, case.literal)? {
            return Ok(true);
        }
    }
    Ok(false)
}

/// Whether the literal is new. It is seen from now on.
fn see(seen: &mut BTreeSet<u32>, literal: u32) -> Result<bool, AllocError>
    ensures before { IfOk result (λ is_new. is_new ≡ not (contains nat_cmp seen.old literal)) }
    ensures now { OnOk result ((other : ℕ)
        → contains nat_cmp seen.new other ≡ ((other == literal) || contains nat_cmp seen.old other)) }
{
    let is_new = seen.insert(literal)?;
    Ok(is_new)
}

/// The labels of the arms: all targets but the merge block.
pub fn arm_labels(
    alloc: Global,
    merge: u32,
    default: u32,
    cases: &[SwitchCase],
) -> Result<BTreeSet<u32>, AllocError>
    ensures { IfOk result
        (λ labels. HasLabels labels (without merge (default ∷ targets cases.now))) }
{
    let mut labels = BTreeSet::new(alloc);
    add_arm(&mut labels, merge, default)?;
    for case in cases {
        add_arm(&mut labels, merge, case.target)?;
    }
    Ok(labels)
}

fn add_arm(labels: &mut BTreeSet<u32>, merge: u32, target: u32) -> Result<(), AllocError>
    ensures { OnOk result ((label : ℕ) → contains nat_cmp labels.new label
        ≡ ((not (target == merge) && (target == label)) || contains nat_cmp labels.old label)) }
{
    if target != merge {
        labels.insert(target)?;
    }
    Ok(())
}
