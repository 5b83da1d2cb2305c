/// The rules for linking pipeline libraries, in the order in which they are judged.
#[derive(Clone, Copy, Debug, PartialEq, Eq)]
pub enum Rule {
    /// Each subset that the pipeline needs is given.
    L1,
    /// No subset is given twice.
    L2,
    /// Nothing after rasterization is given where rasterization is discarded.
    L3,
    /// Both layouts are independent, or neither is.
    L4,
    /// The layouts agree.
    L5,
    /// The view masks agree.
    L6,
    /// The multisample states agree.
    L7,
    /// The vertex input at this location has a fitting attribute.
    L8(u8),
    /// The fragment input at this location fits the vertex output there.
    L9(u8),
    /// For an optimized link, each library retains what that takes.
    L10,
}
