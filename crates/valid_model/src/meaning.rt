use sqlite_items::Items;

/// The types of a structure's members, by their ids.
#[derive(Debug, Drop)]
pub struct Members {
    pub list: Items<u32>,
}

/// What a type is (SPIR-V specification, section 3.49.6 "Type-Declaration Instructions"). Integers have 32 bits.
#[derive(Debug, Drop)]
pub enum Shape {
    Void,
    Bool,
    Int { signed: bool },
    /// Two to four truth values.
    BoolVector { comps: u8 },
    /// Two to four integers.
    IntVector { comps: u8, signed: bool },
    /// So many elements, at least one, of the type with this id.
    Array { elem: u32, len: u32 },
    Struct { members: Members },
    /// The storage class, and the id of the type that is pointed to.
    Pointer { class: u8, to: u32 },
    /// A function without parameters and without a result.
    Function,
}

/// What an id means. `ty` is the id of its type.
#[derive(Debug, Drop)]
pub enum Meaning {
    /// No instruction has this result.
    Absent,
    /// A type.
    Shape(Shape),
    /// A constant or a specialization constant (SPIR-V specification, section 3.49.7 "Constant-Creation Instructions").
    Constant { ty: u32 },
    /// A variable of this storage class.
    Variable { ty: u32, class: u8 },
    /// The result of another instruction.
    Value { ty: u32 },
    /// A block.
    Label,
    /// A function, an import, or the result of an instruction that declares no type or variable that is allowed here.
    Other,
}

/// What is known of an id.
#[derive(Debug, Drop)]
pub struct IdFacts {
    pub meaning: Meaning,
    /// The number of words of a type's values, 0 for types without values that are stored as data and for all other ids.
    pub size: u32,
    /// The number of elements of an array that has this id for its length, 0 where the id can't be one.
    pub length: u32,
}
