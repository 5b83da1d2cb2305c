use crate::fault::TreeFault;
use crate::scope::End;

/// A sequence's last block. Behind a condition sequence stands the body, with the label `next`.
#[derive(Clone, Copy, Debug, Drop, PartialEq, Eq)]
pub struct SequenceEnd {
    pub end: End,
    pub next: Option<u32>,
    pub after: u32,
}

/// A block that ends with OpSelectionMerge and OpBranchConditional.
#[derive(Clone, Copy, Debug, Drop, PartialEq, Eq)]
pub struct SelectionHead {
    pub cond: u32,
    pub merge: u32,
    pub on_true: u32,
    pub on_false: u32,
    pub after: u32,
}

/// A block that ends with OpSelectionMerge and OpSwitch. The literals and their targets are the words of the OpSwitch,
/// the last instruction before `after`.
#[derive(Clone, Copy, Debug, Drop, PartialEq, Eq)]
pub struct SwitchHead {
    pub selector: u32,
    pub merge: u32,
    pub default: u32,
    pub after: u32,
}

/// A block that ends with OpLoopMerge and OpBranch: the loop's header.
#[derive(Clone, Copy, Debug, Drop, PartialEq, Eq)]
pub struct LoopHead {
    pub header: u32,
    pub merge: u32,
    pub next: u32,
    pub test: u32,
    pub after: u32,
}

/// How one block ends. `after` is the place after its last instruction.
#[derive(Clone, Copy, Debug, Drop, PartialEq, Eq)]
pub enum BlockEnd {
    /// The grammar can't take one of its instructions.
    Broken(TreeFault),
    /// The sequence ends with it.
    Ends(SequenceEnd),
    /// The sequence goes on with the block that stands next, at this place.
    GoesOn(u32),
    /// A selection begins.
    Selects(SelectionHead),
    /// An OpSwitch begins.
    Picks(SwitchHead),
    /// A loop begins.
    Loops(LoopHead),
}
