/// How a sequence of blocks ends.
#[derive(Clone, Copy, Debug, Drop, PartialEq, Eq)]
pub enum End {
    /// An arm goes to the merge block of its selection or OpSwitch.
    Merge,
    /// A sequence inside an arm of an OpSwitch goes to the merge block of that OpSwitch.
    Leave,
    /// A loop's body, or an arm in it, goes to the loop's merge block.
    Break,
    /// A loop's body, or an arm in it, goes to the loop's continue target.
    Continue,
    /// A loop's continue sequence goes back to the loop's header.
    Back,
    /// A loop's condition sequence goes to the loop's body where the condition is `on_true`, else to its merge block.
    Test { cond: u32, on_true: bool },
    /// The invocation ends by OpReturn or OpUnreachable.
    Return,
    /// The invocation ends by OpKill.
    Kill,
}

/// Where a loop's body may go: the loop's merge block and its continue target.
#[derive(Clone, Copy, Debug, Drop, PartialEq, Eq)]
pub struct LoopExits {
    pub merge: u32,
    pub next: u32,
}

/// Where phis may stand in a block.
#[derive(Clone, Copy, Debug, Drop, PartialEq, Eq)]
pub enum Phis {
    /// The block is the function's first, or a loop's merge block, its continue target or the first block of its body.
    Nowhere,
    /// Only where the block is a loop's header.
    AtHeader,
    /// The block is the merge block of a selection or an OpSwitch.
    Anywhere,
}
