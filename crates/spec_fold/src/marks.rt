//! Sets of ids.
ghost use Rattle.std.specs.Prelude.{◌≡◌, IfOk, OnOk};
ghost use Rattle.spec_fold.specs.Sets.{has, Adds, IsEmpty};

use id_table::IdTable;
use std::alloc::{AllocError, Global};

/// A set of ids.
#[derive(Drop)]
pub struct Marks {
    /// What is in the set has a value.
    pub table: IdTable<bool>,
}

impl Marks {
    /// A set without ids, for about so many that lie below the bound.
    pub fn new(alloc: Global, bound: u32, expected: usize) -> Result<Marks, AllocError>
        ensures { IfOk result IsEmpty }
    {
        let table = IdTable::new(alloc, bound, expected)?;
        Ok(Marks { table })
    }

    /// Whether an id is in the set.
    pub fn has(&self, id: u32) -> bool
        ensures { result ≡ has self.now id }
    {
        self.table.contains(id)
    }

    /// Adds an id.
    pub fn add(&mut self, id: u32) -> Result<(), AllocError>
        ensures { OnOk result (Adds id self.old self.new) }
    {
        self.table.insert(id, true)
    }
}
