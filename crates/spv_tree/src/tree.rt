use body_model::End;
use sqlite_items::{Boxed, Items};

/// A function's blocks as a tree (SPIR-V specification, section 2.11 "Structured Control Flow").
#[derive(Drop)]
pub struct Body {
    pub run: Run,
}

/// A sequence of blocks and constructs, and how it ends.
#[cycle(tree)]
#[derive(Drop)]
pub struct Run {
    pub nodes: Items<Node>,
    pub end: End,
}

/// A part of a sequence. A block that ends with a merge instruction stands right before its selection, OpSwitch or loop.
#[cycle(tree)]
#[derive(Drop)]
pub enum Node {
    Block(Block),
    Choice(Boxed<Choice>),
    Pick(Boxed<Pick>),
    Round(Boxed<Round>),
}

/// A block by the places of its instructions.
#[derive(Clone, Copy, Debug, Drop, PartialEq, Eq)]
pub struct Block {
    pub label: u32,
    /// The place of its OpLabel.
    pub first: u32,
    /// The number of its instructions, from its OpLabel to its terminator.
    pub count: u32,
}

/// A selection: where `cond` holds it goes on with `yes`, else with `no`; no arm is the way straight to the block `merge`.
#[cycle(tree)]
#[derive(Drop)]
pub struct Choice {
    pub cond: u32,
    pub merge: u32,
    pub yes: Option<Run>,
    pub no: Option<Run>,
}

/// An OpSwitch: it goes on with the arm of the literal that `selector` equals, else with the arm `default`. An arm is
/// given by its number in the order in which the arms stand; no number is the way straight to the block `merge`.
#[cycle(tree)]
#[derive(Drop)]
pub struct Pick {
    pub selector: u32,
    pub merge: u32,
    pub cases: Items<PickCase>,
    pub default: Option<u32>,
    pub arms: Items<Run>,
}

/// A literal of an OpSwitch, and the number of its arm.
#[derive(Clone, Copy, Debug, Drop, PartialEq, Eq)]
pub struct PickCase {
    pub literal: u32,
    pub arm: Option<u32>,
}

/// A loop: the labels of its header, its merge block and its continue target, and its three sequences.
#[cycle(tree)]
#[derive(Drop)]
pub struct Round {
    pub header: u32,
    pub merge: u32,
    pub next: u32,
    /// The condition sequence.
    pub test: Run,
    /// The body.
    pub inner: Run,
    /// The continue sequence.
    pub step: Run,
}
