//! Where a block stands: what it may have, and where its sequence may go.
ghost use Rattle.std.specs.Prelude.{◌≡◌, ℕ, ◌+◌, ◌<◌, List, [], ◌++◌};
ghost use Rattle.body_model.specs.Scope as spec;
ghost use Rattle.spv_tree.specs.Barred.{with_barred};

use body_model::{LoopExits, Phis};
use limits::NESTING;

/// A scope of the grammar without its barred labels.
#[derive(Clone, Copy, Drop)]
pub struct Scope {
    pub phis: Phis,
    pub first: bool,
    pub merge: Option<u32>,
    pub leave: Option<u32>,
    pub exits: Option<LoopExits>,
    pub header: Option<u32>,
    pub test: Option<u32>,
    pub may_loop: bool,
    pub may_end: bool,
    pub depth: u32,
}

/// The function's own sequence.
pub fn main() -> Scope
    ensures { with_barred result [] ≡ spec.main }
{
    Scope {
        phis: Phis::Nowhere,
        first: true,
        merge: None,
        leave: None,
        exits: None,
        header: None,
        test: None,
        may_loop: true,
        may_end: true,
        depth: 0,
    }
}

/// The sequence goes on at the block behind one.
pub fn behind_block(scope: Scope) -> Scope
    ensures { (barred : List ℕ) → with_barred result barred
        ≡ spec.behind_block (with_barred scope barred) }
{
    Scope {
        phis: Phis::AtHeader,
        first: false,
        ..scope
    }
}

/// The sequence goes on at the merge block of a selection or an OpSwitch.
pub fn behind_selection(scope: Scope) -> Scope
    ensures { (barred : List ℕ) → with_barred result barred
        ≡ spec.behind_selection (with_barred scope barred) }
{
    Scope {
        phis: Phis::Anywhere,
        first: false,
        ..scope
    }
}

/// The sequence goes on at the merge block of a loop.
pub fn behind_loop(scope: Scope) -> Scope
    ensures { (barred : List ℕ) → with_barred result barred
        ≡ spec.behind_loop (with_barred scope barred) }
{
    Scope {
        phis: Phis::Nowhere,
        first: false,
        ..scope
    }
}

/// An arm of a selection in the sequence.
pub fn arm(scope: Scope, merge: u32) -> Scope
    requires { scope.depth < NESTING }
    ensures is { (barred : List ℕ) → with_barred result barred
        ≡ spec.arm (with_barred scope barred) merge }
    ensures depth { result.depth ≡ scope.depth + 1 }
{
    Scope {
        phis: Phis::AtHeader,
        first: false,
        merge: Some(merge),
        leave: scope.leave,
        exits: scope.exits,
        header: None,
        test: None,
        may_loop: scope.may_loop,
        may_end: scope.may_end,
        depth: scope.depth + 1,
    }
}

/// An arm of an OpSwitch in the sequence, whose other arms bar their labels.
pub fn switch_arm(scope: Scope, merge: u32) -> Scope
    requires { scope.depth < NESTING }
    ensures is { (others barred : List ℕ)
        → with_barred result (others ++ barred) ≡ spec.switch_arm (with_barred scope barred) merge others }
    ensures depth { result.depth ≡ scope.depth + 1 }
{
    Scope {
        leave: Some(merge),
        ..arm(scope, merge)
    }
}

/// A part of a loop in the sequence: nothing but what the part itself allows leads out of it.
fn loop_part(scope: Scope) -> Scope
    requires { scope.depth < NESTING }
    ensures is { (barred : List ℕ) → with_barred result barred
        ≡ spec.loop_part (with_barred scope barred) }
    ensures depth { result.depth ≡ scope.depth + 1 }
{
    Scope {
        phis: Phis::Nowhere,
        first: false,
        merge: None,
        leave: None,
        exits: None,
        header: None,
        test: None,
        may_loop: scope.may_loop,
        may_end: scope.may_end,
        depth: scope.depth + 1,
    }
}

/// The condition sequence of a loop in the sequence.
pub fn condition(scope: Scope, merge: u32) -> Scope
    requires { scope.depth < NESTING }
    ensures is { (barred : List ℕ) → with_barred result barred
        ≡ spec.condition (with_barred scope barred) merge }
    ensures depth { result.depth ≡ scope.depth + 1 }
{
    Scope {
        phis: Phis::AtHeader,
        test: Some(merge),
        may_loop: false,
        may_end: false,
        ..loop_part(scope)
    }
}

/// The body of a loop in the sequence.
pub fn body(scope: Scope, merge: u32, next: u32) -> Scope
    requires { scope.depth < NESTING }
    ensures is { (barred : List ℕ) → with_barred result barred
        ≡ spec.body (with_barred scope barred) merge next }
    ensures depth { result.depth ≡ scope.depth + 1 }
{
    Scope {
        exits: Some(LoopExits { merge, next }),
        ..loop_part(scope)
    }
}

/// The continue sequence of a loop in the sequence.
pub fn continuing(scope: Scope, header: u32) -> Scope
    requires { scope.depth < NESTING }
    ensures is { (barred : List ℕ) → with_barred result barred
        ≡ spec.continuing (with_barred scope barred) header }
    ensures depth { result.depth ≡ scope.depth + 1 }
{
    Scope {
        header: Some(header),
        may_end: false,
        ..loop_part(scope)
    }
}
