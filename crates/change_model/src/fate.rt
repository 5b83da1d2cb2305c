use scalar_model::Scalar;

/// What becomes of an instruction of a function where a module is changed.
#[derive(Clone, Copy, Debug, Drop, PartialEq, Eq)]
pub enum Fate {
    /// Control never comes there, and it goes.
    Dead,
    /// It stays, with other names for what it reads; a phi keeps the pairs of the blocks that still branch to its own.
    Stays,
    /// It always leads to the block with this label, and becomes OpBranch.
    Goes(u32),
    /// An OpSwitch that always leads to the block with this label keeps it as its default, without any literal.
    Picks(u32),
    /// Its result is always this scalar, and becomes a constant of the module's level.
    Folds(Scalar),
    /// Its result is always the null of its type, and becomes a constant of the module's level.
    Nulls,
    /// A phi goes whose result is always that of one other id, which is used in its place.
    Resolves,
    /// A merge instruction goes, since the branch behind it has one way, or since its loop is left at once.
    Skips,
    /// It goes, since its result isn't used, or what it writes isn't read.
    Unused,
}
