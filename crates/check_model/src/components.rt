/// What a component of a scalar or a vector is. Integers have 32 bits.
#[derive(Clone, Copy, Debug, Drop, PartialEq, Eq)]
pub enum Component {
    Truth,
    Integer { signed: bool },
}

/// What a scalar or a vector is made of.
#[derive(Clone, Copy, Debug, Drop, PartialEq, Eq)]
pub struct Components {
    pub component: Component,
    /// 1 for a scalar, 2 to 4 for a vector.
    pub count: u8,
}

/// What indices lead to in a composite.
#[derive(Clone, Copy, Debug, Drop, PartialEq, Eq)]
pub enum Part {
    /// A part of the type with this id.
    Type(u32),
    /// A component of a vector.
    Component(Component),
}
