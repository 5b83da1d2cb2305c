/// A place on the target, in 1/256 pixel; y grows downwards.
#[derive(Clone, Copy, Debug, PartialEq, Eq)]
pub struct Position {
    /// To the right.
    pub x: i64,
    /// Downwards.
    pub y: i64,
}
