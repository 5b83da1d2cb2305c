ghost use Rattle.std.specs.Prelude.{◌≡◌, IfOk, OnOk, OnErr, is_some, option_copied, vec_len};
ghost use Rattle.id_table.specs.Tables.{at, AreEmpty, HasNone, IsSame, Sets, near_count, near_ids};

use std::alloc::{AllocError, Global};
use std::collections::BTreeMap;

/// The number of ids for each expected value up to which a table keeps a place for every id.
const IDS_FOR_EACH: u64 = 8;

/// Values by id, at most one for each.
///
/// An id below `near_ids` costs an index, and any other id a look-up in an ordered map. An IdTable is seen by what it
/// holds `at` each id.
#[derive(Debug, Drop)]
pub struct IdTable<T> {
    /// The values of the ids below its length.
    near: Vec<Option<T>>,
    /// The values of all other ids.
    far: BTreeMap<u32, T>,
}

/// The number of ids that have a place in the vector: all below the bound, or none.
fn near_count(bound: u32, expected: usize) -> usize
    ensures { result ≡ near_count bound expected }
{
    if u64::from(bound).div_ceil(IDS_FOR_EACH) <= expected as u64 {
        bound as usize
    } else {
        0
    }
}

/// So many places without a value.
fn empty_places<T: Drop>(alloc: Global, count: usize) -> Result<Vec<Option<T>>, AllocError>
    ensures { IfOk result (λ places. AreEmpty count places.items) }
{
    let mut places = Vec::with_capacity(alloc, count)?;
    for _ in 0..count {
        places.push_reserved(None);
    }
    Ok(places)
}

impl<T: Drop> IdTable<T> {
    /// A table without values, for about so many of them whose ids lie below the bound.
    ///
    /// Where the bound is at most eight times the expected number, it takes the memory of a place for each id below the
    /// bound, and else none, so that a bound alone never costs memory. Any id may be given a value later.
    pub fn new(alloc: Global, bound: u32, expected: usize) -> Result<IdTable<T>, AllocError>
        ensures empty { IfOk result HasNone }
        ensures near { IfOk result (λ table. near_ids table ≡ near_count bound expected) }
    {
        let near = empty_places(alloc, near_count(bound, expected))?;
        Ok(IdTable {
            near,
            far: BTreeMap::new(alloc),
        })
    }

    /// The value of the id.
    pub fn get(&self, id: u32) -> Option<&T>
        ensures { option_copied result ≡ at self.now id }
    {
        if (id as usize) < self.near.len() {
            self.near[id as usize].as_ref()
        } else {
            self.far.get(&id)
        }
    }

    /// Whether the id has a value.
    pub fn contains(&self, id: u32) -> bool
        ensures { result ≡ is_some (at self.now id) }
    {
        self.get(id).is_some()
    }

    /// Gives the id this value, in the place of an earlier one. Where memory runs out, each id keeps what it had.
    pub fn insert(&mut self, id: u32, value: T) -> Result<(), AllocError>
        ensures sets { OnOk result (Sets id value self.old self.new) }
        ensures err { OnErr result (IsSame self.old self.new) }
        ensures near { near_ids self.new ≡ near_ids self.old }
    {
        if (id as usize) < self.near.len() {
            self.near[id as usize] = Some(value);
        } else {
            self.far.insert(id, value)?;
        }
        Ok(())
    }
}
