use limits::LOCATIONS;

/// One location of a stage's interface: a vector of 32-bit integers.
#[derive(Clone, Copy, Debug, PartialEq, Eq)]
pub struct Slot {
    /// Components, 1 to 4.
    pub comps: u8,
    /// Whether the integers are signed.
    pub signed: bool,
}

/// The inputs or the outputs of a stage, by location.
#[derive(Clone, Copy, Debug, PartialEq, Eq)]
pub struct Iface {
    /// By location.
    pub slots: [Option<Slot>; LOCATIONS],
}
