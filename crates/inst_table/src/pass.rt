//! What reads a table.
ghost use Rattle.std.specs.Prelude.{◌≡◌, ◌≢◌, ℕ, ◌+◌, ◌-◌, ◌≤◌, ◌<◌, [], IfSome, IfOk};
ghost use Rattle.inst_table.specs.Views.{split_view};
ghost use Rattle.inst_table.specs.Passes.{KnowsAtLeast, IsKnownUnit, LooksOnce, LearnsAlongChain};

use crate::KEY_WORDS;
use crate::rule::{JoinsPass, Seat, SplitsPass};
use crate::setup::Fit;
use crate::table::Table;
use std::alloc::{AllocError, Global};
use std::marker::Brand;

/// A reader's seat. It knows what it has read.
#[derive(Drop)]
pub struct Pass {
    pub(crate) seat: Seat,
    ghost bare: { seat.me.1 ≡ [] },
}

/// The answer of a look-up.
#[derive(Clone, Copy, Debug, PartialEq, Eq)]
pub enum Find {
    /// The row has the key.
    Hit(u32),
    /// So many rows were there, and none of them has the key.
    Miss(u32),
}

impl Pass {
    ghost use Rattle.inst_table.specs.Names.{home_of, view_of, id_of, numbers_of};
    ghost use Rattle.inst_table.specs.Find.{IfHit, IfMiss, IsHit, IsMiss};
    ghost use Rattle.inst_table.specs.AddressLoads.{word_in, IsKnownAddress, IsAddressOf, GivesKnownAddress, LoadsAddress, LoadsNoAddress};
    ghost use Rattle.inst_table.specs.Tables.{IsRecordAt, FitsAt};

    pub(crate) fn new(seat: Seat) -> Pass
        requires { seat.me.1 ≡ [] }
        ensures { result.seat ≡ seat }
    {
        Pass { seat }
    }

    /// Looks the key up, along the chain of its bucket.
    pub fn find<F: Fit>(&mut self, table: &Table<F>, key: &[u64; KEY_WORDS]) -> Find
        requires { home_of self.old ≡ id_of table.now }
        ensures table { home_of self.new ≡ home_of self.old }
        ensures looks { LooksOnce (view_of self.old) (view_of self.new) }
        ensures hit { IfHit result (IsHit table.now key.now self.new) }
        ensures miss { IfMiss result (IsMiss table.now key.now self.old self.new) }
        ensures chain { LearnsAlongChain (view_of self.old) (view_of self.new) key.now }
        ensures knows { KnowsAtLeast (view_of self.old) (view_of self.new) }
        ensures loads { LoadsNoAddress (view_of self.old) (view_of self.new) }
    {
        let count = table.count::<Brand>(&mut self.seat);
        match table.follow::<Brand>(&mut self.seat, key, count) {
            Some(row) => Find::Hit(row),
            None => Find::Miss(count),
        }
    }

    /// A new pass that knows what this one knows. It has loaded no address.
    pub fn split<F: Fit>(&mut self, table: &Table<F>) -> Pass
        requires { home_of self.old ≡ id_of table.now }
        ensures table { home_of self.new ≡ home_of self.old }
        ensures home { home_of result ≡ home_of self.old }
        ensures same { view_of self.new ≡ view_of self.old }
        ensures pass { view_of result ≡ split_view (view_of self.old) }
        ensures knows { KnowsAtLeast (view_of self.old) (view_of result) }
        ensures loads { (view_of result).address_loads ≡ [] }
    {
        Pass {
            seat: table.words.shared.split_seat::<SplitsPass>(&mut self.seat),
        }
    }

    /// This pass then knows what both knew. The other one is spent.
    pub fn join<F: Fit>(&mut self, table: &Table<F>, other: Pass)
        requires { (home_of self.old ≡ id_of table.now) × (home_of other ≡ id_of table.now) }
        ensures table { home_of self.new ≡ home_of self.old }
        ensures knows { KnowsAtLeast (view_of self.old) (view_of self.new) }
        ensures others { KnowsAtLeast (view_of other) (view_of self.new) }
        ensures loads { LoadsNoAddress (view_of self.old) (view_of self.new) }
    {
        let Pass { seat } = other;
        table
            .words
            .shared
            .join_seat::<JoinsPass>(&mut self.seat, seat);
    }

    /// Loads the address word of a unit: `None` is 0.
    pub fn address<F: Fit>(&mut self, table: &Table<F>, unit: u32) -> Option<Address>
        requires table { home_of self.old ≡ id_of table.now }
        requires known { IsKnownUnit (numbers_of table.now) (view_of self.old) unit }
        ensures table { home_of self.new ≡ home_of self.old }
        ensures loads { LoadsAddress (view_of self.old) (view_of self.new) unit (word_in result) }
        ensures same { GivesKnownAddress (view_of self.old) unit result }
        ensures address { IfSome result (IsAddressOf unit (view_of self.new)) }
        ensures knows { KnowsAtLeast (view_of self.old) (view_of self.new) }
    {
        let word = table.read_address::<Brand>(&mut self.seat, unit);
        if word == 0 {
            return None;
        }
        Some(Address { unit, word })
    }

    /// The record at an address that the pass knows: two lengths, and so many words.
    pub fn fetch<F: Fit>(
        &mut self,
        alloc: Global,
        table: &Table<F>,
        address: Address,
    ) -> Result<Vec<u32>, AllocError>
        requires table { home_of self.old ≡ id_of table.now }
        requires known { IsKnownAddress (view_of self.old) address }
        ensures table { home_of self.new ≡ home_of self.old }
        ensures record { IfOk result (IsRecordAt (view_of self.new) address) }
        ensures fits { IfOk result (FitsAt table.now (view_of self.new) address) }
        ensures knows { KnowsAtLeast (view_of self.old) (view_of self.new) }
        ensures loads { LoadsNoAddress (view_of self.old) (view_of self.new) }
    {
        table.read_whole(alloc, &mut self.seat, address)
    }
}

/// Where a unit's record lies.
#[derive(Clone, Copy, Debug, PartialEq, Eq)]
pub struct Address {
    pub unit: u32,
    /// 1 plus the record's place in the heap.
    pub word: u64,
}
