// The loads of a look-up.
ghost use Rattle.std.specs.Prelude.{◌≡◌, ◌≢◌, ℕ, suc, ◌+◌, ◌-◌, ◌≤◌, ◌<◌, ◌⊎◌, [], true, false, length};
ghost use Rattle.inst_table.specs.Bucket.{key_words, bucket_of};
ghost use Rattle.inst_table.specs.Views.{with_seen, with_walk, with_known};
ghost use Rattle.inst_table.specs.Plays.{Becomes};
ghost use Rattle.inst_table.specs.Passes.{KnowsNoRow, LearnsRow, FollowsChain, IsPassed, ComparesRow, FindsRow, StandsAt, EndsLookUp};
ghost use Rattle.inst_table.specs.declared.view.KnownWord.TheVariants.{KeyWord};

use crate::KEY_WORDS;
use crate::layout::{COUNT, bucket_of, head_place, key_place, next_place};
use crate::rule::{LoadsCount, LoadsHead, LoadsKeyWord, LoadsNext, LookUpOperands, Seat};
use crate::setup::Fit;
use crate::table::Table;

impl<F: Fit> Table<F> {
    ghost use Rattle.inst_table.specs.Names.{id_of, room_of};

    pub(crate) fn count<K: LookUpOperands>(&self, seat: &mut Seat) -> u32
        requires table { seat.old.table_id ≡ id_of self.now }
        requires room { K.room ≡ room_of self.now }
        ensures table { seat.new.table_id ≡ seat.old.table_id }
        ensures view { Becomes (with_seen result) seat.old.me seat.new.me }
        ensures later { seat.old.me.0.seen ≤ result }
        ensures inside { result ≤ room_of self.now }
    {
        self.words.shared.load::<LoadsCount<K>>(seat, COUNT) as u32
    }

    // 1 plus the newest row of the key's bucket, or 0.
    fn head<K: LookUpOperands>(&self, seat: &mut Seat, key: &[u64; KEY_WORDS]) -> u64
        requires table { seat.old.table_id ≡ id_of self.now }
        requires room { K.room ≡ room_of self.now }
        requires key { K.key ≡ key.now }
        requires below { K.below ≡ seat.old.me.0.seen }
        ensures table { seat.new.table_id ≡ seat.old.table_id }
        ensures view { Becomes (with_walk K.key K.below result) seat.old.me seat.new.me }
        ensures inside { result ≤ K.room }
        ensures misses { result ≡ 0 → KnowsNoRow seat.old.me.0 K.key }
    {
        self.words
            .shared
            .load::<LoadsHead<K>>(seat, head_place(bucket_of(key)))
    }

    // 1 plus the newest row of the bucket below this one, or 0.
    fn next<K: LookUpOperands>(&self, seat: &mut Seat, row: usize) -> u64
        requires table { seat.old.table_id ≡ id_of self.now }
        requires room { (K.room ≡ room_of self.now) × (row < K.room) }
        requires key { length K.key ≡ key_words }
        requires below { K.below ≡ seat.old.me.0.seen }
        requires stands { StandsAt seat.old.me.0 K.key K.below row }
        requires passed { IsPassed seat.old.me.0 row K.key K.below }
        ensures table { seat.new.table_id ≡ seat.old.table_id }
        ensures view { Becomes (with_walk K.key K.below result) seat.old.me seat.new.me }
        ensures below { result ≤ row }
        ensures misses { result ≡ 0 → KnowsNoRow seat.old.me.0 K.key }
    {
        self.words
            .shared
            .load::<LoadsNext<K>>(seat, next_place(row))
    }

    fn key_word(&self, seat: &mut Seat, row: usize, at: usize) -> u64
        requires table { seat.old.table_id ≡ id_of self.now }
        requires row { (row < seat.old.me.0.seen) × (row < room_of self.now) }
        requires at { at < key_words }
        ensures table { seat.new.table_id ≡ seat.old.table_id }
        ensures view { Becomes (with_known (KeyWord row at result)) seat.old.me seat.new.me }
    {
        self.words
            .shared
            .load::<LoadsKeyWord>(seat, key_place(row, at))
    }

    fn has_key(&self, seat: &mut Seat, row: usize, key: &[u64; KEY_WORDS]) -> bool
        requires table { seat.old.table_id ≡ id_of self.now }
        requires row { (row < seat.old.me.0.seen) × (row < room_of self.now) }
        ensures table { seat.new.table_id ≡ seat.old.table_id }
        ensures rights { seat.new.me.1 ≡ seat.old.me.1 }
        ensures learns { LearnsRow seat.old.me.0 row seat.new.me.0 }
        ensures answer { ComparesRow seat.new.me.0 row key.now result }
    {
        for (at, word) in key.iter().enumerate() {
            if self.key_word(seat, row, at) != *word {
                return false;
            }
        }
        true
    }

    // Whether the row is one of those below the count, and has the key.
    fn is_found(&self, seat: &mut Seat, row: usize, key: &[u64; KEY_WORDS], count: u32) -> bool
        requires table { seat.old.table_id ≡ id_of self.now }
        requires count { seat.old.me.0.seen ≡ count }
        requires row { row < room_of self.now }
        ensures table { seat.new.table_id ≡ seat.old.table_id }
        ensures rights { seat.new.me.1 ≡ seat.old.me.1 }
        ensures learns { LearnsRow seat.old.me.0 row seat.new.me.0 }
        ensures answer { FindsRow seat.new.me.0 row key.now count result }
    {
        if row >= count as usize {
            return false;
        }
        self.has_key(seat, row, key)
    }

    // The row below the count that has the key.
    pub(crate) fn follow<K: LookUpOperands>(
        &self,
        seat: &mut Seat,
        key: &[u64; KEY_WORDS],
        count: u32,
    ) -> Option<u32>
        requires table { seat.old.table_id ≡ id_of self.now }
        requires room { K.room ≡ room_of self.now }
        requires key { K.key ≡ key.now }
        requires below { (K.below ≡ count) × (seat.old.me.0.seen ≡ count) }
        ensures table { seat.new.table_id ≡ seat.old.table_id }
        ensures rights { seat.new.me.1 ≡ seat.old.me.1 }
        ensures follows { FollowsChain seat.old.me.0 seat.new.me.0 key.now }
        ensures answer { EndsLookUp seat.old.me.0 seat.new.me.0 key.now count result }
    {
        let mut place = self.head::<K>(seat, key);
        while place != 0 {
            let row = (place - 1) as usize;
            if self.is_found(seat, row, key, count) {
                return Some(row as u32);
            }
            place = self.next::<K>(seat, row);
        }
        None
    }
}
