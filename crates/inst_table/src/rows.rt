// The steps of the creator.
ghost use Rattle.std.specs.Prelude.{◌≡◌, ◌≢◌, ℕ, suc, ◌+◌, ◌-◌, ◌≤◌, ◌<◌, [], ◌∷◌, ◌++◌, Some, true, false, length, take, MatchBool, IfOk};
ghost use Rattle.inst_table.specs.Bucket.{key_words, buckets, bucket_of};
ghost use Rattle.inst_table.specs.Chain.{key_at};
ghost use Rattle.inst_table.specs.Views.{with_key_word, with_key, with_next, with_head, with_count, with_row, row_note};
ghost use Rattle.inst_table.specs.Passes.{KnowsRightKeys};
ghost use Rattle.inst_table.specs.Plays.{Becomes, IsOfRows};
ghost use Rattle.inst_table.specs.Writers.{IsDrafting, IsAtRest, IsNextRow, IsLinkedRow, IsDraftIn, IsNewKey, IsNewDraft, IsRowWithKey, IsWhetherEqual};
ghost use Rattle.inst_table.specs.Tables.{AsksFor};
ghost use Rattle.inst_table.specs.Closing.{AreRowsOf};

use crate::KEY_WORDS;
use crate::layout::{COUNT, bucket_of, head_place, key_place, next_place};
use crate::pass::Pass;
use crate::rule::{
    NotesRows, ReloadsOwnRow, RowOperands, Seat, StoresCount, StoresHead, StoresKeyWord, StoresNext,
};
use crate::setup::Fit;
use crate::table::Table;
use std::alloc::{AllocError, Global};
use std::marker::Brand;

impl<F: Fit> Table<F> {
    ghost use Rattle.inst_table.specs.Names.{id_of, asked_of, room_of, home_of, view_of};

    // A word of the rows, for the creator, who knows what it is.
    pub(crate) fn own_word<K: RowOperands>(&self, seat: &mut Seat, word: usize) -> u64
        requires table { seat.old.table_id ≡ id_of self.now }
        requires inside { word < (id_of self.now).words }
        requires creates { seat.old.me.0.creates ≡ true }
        requires operands { AsksFor K.asked K.room self.now }
        ensures table { seat.new.table_id ≡ seat.old.table_id }
        ensures view { seat.new.me ≡ seat.old.me }
        ensures word { IsOfRows seat.old.me.0.rows word result }
        ensures sound { AreRowsOf self.now seat.old.me.0.rows.linked }
        ensures known { KnowsRightKeys seat.old.me.0 seat.old.me.0.rows.linked }
    {
        self.words.shared.load::<ReloadsOwnRow<K>>(seat, word)
    }

    // The key of a row, for the creator.
    fn own_key(&self, seat: &mut Seat, row: usize) -> [u64; KEY_WORDS]
        requires table { seat.old.table_id ≡ id_of self.now }
        requires creates { seat.old.me.0.creates ≡ true }
        requires row { IsLinkedRow (room_of self.now) seat.old.me.0.rows row }
        ensures table { seat.new.table_id ≡ seat.old.table_id }
        ensures view { seat.new.me ≡ seat.old.me }
        ensures key { result ≡ key_at seat.old.me.0.rows.linked row }
    {
        let mut key = [0; KEY_WORDS];
        for at in 0..KEY_WORDS {
            key[at] = self.own_word::<Brand>(seat, key_place(row, at));
        }
        key
    }

    // The keys of all rows, in their order.
    pub(crate) fn own_keys(
        &self,
        alloc: Global,
        seat: &mut Seat,
        count: u32,
    ) -> Result<Vec<[u64; KEY_WORDS]>, AllocError>
        requires table { seat.old.table_id ≡ id_of self.now }
        requires creates { seat.old.me.0.creates ≡ true }
        requires count { length seat.old.me.0.rows.linked ≡ count }
        ensures table { seat.new.table_id ≡ seat.old.table_id }
        ensures view { seat.new.me ≡ seat.old.me }
        ensures keys { IfOk result (λ keys. keys.items ≡ seat.old.me.0.rows.linked) }
        ensures sound { AreRowsOf self.now seat.old.me.0.rows.linked }
    {
        self.own_word::<Brand>(seat, COUNT);
        let mut keys = Vec::with_capacity(alloc, count as usize)?;
        for row in 0..count as usize {
            keys.push_reserved(self.own_key(seat, row));
        }
        Ok(keys)
    }

    fn has_own_key(&self, seat: &mut Seat, row: usize, key: &[u64; KEY_WORDS]) -> bool
        requires table { seat.old.table_id ≡ id_of self.now }
        requires creates { seat.old.me.0.creates ≡ true }
        requires row { IsLinkedRow (room_of self.now) seat.old.me.0.rows row }
        ensures table { seat.new.table_id ≡ seat.old.table_id }
        ensures view { seat.new.me ≡ seat.old.me }
        ensures answer { IsWhetherEqual result (key_at seat.old.me.0.rows.linked row) key.now }
    {
        for (at, word) in key.iter().enumerate() {
            if self.own_word::<Brand>(seat, key_place(row, at)) != *word {
                return false;
            }
        }
        true
    }

    // The row that has the key, along the chain of its bucket.
    pub(crate) fn row_of(&self, seat: &mut Seat, key: &[u64; KEY_WORDS], count: u32) -> Option<u32>
        requires table { seat.old.table_id ≡ id_of self.now }
        requires creates { seat.old.me.0.creates ≡ true }
        requires count { length seat.old.me.0.rows.linked ≡ count }
        ensures table { seat.new.table_id ≡ seat.old.table_id }
        ensures view { seat.new.me ≡ seat.old.me }
        ensures sound { AreRowsOf self.now seat.old.me.0.rows.linked }
        ensures answer { IsRowWithKey seat.old.me.0.rows key.now count result }
    {
        let mut place = self.own_word::<Brand>(seat, head_place(bucket_of(key)));
        while place != 0 {
            let row = (place - 1) as usize;
            if self.has_own_key(seat, row, key) {
                return Some(row as u32);
            }
            place = self.own_word::<Brand>(seat, next_place(row));
        }
        None
    }

    fn store_key_word(&self, seat: &mut Seat, row: usize, at: usize, word: u64)
        requires table { seat.old.table_id ≡ id_of self.now }
        requires creates { IsDrafting seat.old.me.0 }
        requires row { IsNextRow (room_of self.now) seat.old.me.0.rows row }
        requires at { (length seat.old.me.0.rows.draft ≡ at) × (at < key_words) }
        ensures table { seat.new.table_id ≡ seat.old.table_id }
        ensures view { Becomes (with_key_word word) seat.old.me seat.new.me }
    {
        self.words
            .shared
            .store::<StoresKeyWord>(seat, key_place(row, at), word);
    }

    fn store_key(&self, seat: &mut Seat, row: usize, key: &[u64; KEY_WORDS])
        requires table { seat.old.table_id ≡ id_of self.now }
        requires creates { IsAtRest seat.old.me.0 }
        requires row { IsNextRow (room_of self.now) seat.old.me.0.rows row }
        ensures table { seat.new.table_id ≡ seat.old.table_id }
        ensures view { Becomes (with_key key.now) seat.old.me seat.new.me }
    {
        for (at, word) in key.iter().enumerate() {
            self.store_key_word(seat, row, at, *word);
        }
    }

    fn store_next(&self, seat: &mut Seat, row: usize, bucket: usize)
        requires table { seat.old.table_id ≡ id_of self.now }
        requires creates { IsDrafting seat.old.me.0 }
        requires row { (length seat.old.me.0.rows.linked ≡ row) × (row < room_of self.now) }
        requires draft { IsDraftIn bucket seat.old.me.0.rows }
        ensures table { seat.new.table_id ≡ seat.old.table_id }
        ensures view { Becomes with_next seat.old.me seat.new.me }
    {
        let newest = self.own_word::<Brand>(seat, head_place(bucket));
        self.words
            .shared
            .store::<StoresNext>(seat, next_place(row), newest);
    }

    fn store_head(&self, seat: &mut Seat, row: usize, bucket: usize)
        requires table { seat.old.table_id ≡ id_of self.now }
        requires creates { seat.old.me.0.creates ≡ true }
        requires next { seat.old.me.0.rows.joined ≡ true }
        requires row { (length seat.old.me.0.rows.linked ≡ row) × (row < room_of self.now) }
        requires draft { IsDraftIn bucket seat.old.me.0.rows }
        requires new { IsNewDraft (asked_of self.now) seat.old.me.0.rows row }
        ensures table { seat.new.table_id ≡ seat.old.table_id }
        ensures view { Becomes with_head seat.old.me seat.new.me }
    {
        self.words
            .shared
            .store::<StoresHead>(seat, head_place(bucket), row as u64 + 1);
    }

    fn store_count(&self, seat: &mut Seat, count: u32)
        requires table { seat.old.table_id ≡ id_of self.now }
        requires creates { seat.old.me.0.creates ≡ true }
        requires linked { length seat.old.me.0.rows.linked ≡ seat.old.me.0.rows.count + 1 }
        requires count { count ≡ seat.old.me.0.rows.count + 1 }
        ensures table { seat.new.table_id ≡ seat.old.table_id }
        ensures view { Becomes with_count seat.old.me seat.new.me }
    {
        self.words
            .shared
            .store::<StoresCount>(seat, COUNT, count as u64);
    }

    // Adds a row: first its key, then its next word, then the bucket head, then the count.
    pub(crate) fn append(&self, seat: &mut Seat, key: &[u64; KEY_WORDS], count: u32)
        requires table { seat.old.table_id ≡ id_of self.now }
        requires creates { IsAtRest seat.old.me.0 }
        requires row { IsNextRow (room_of self.now) seat.old.me.0.rows count }
        requires new { IsNewKey (asked_of self.now) seat.old.me.0.rows key.now count }
        ensures table { seat.new.table_id ≡ seat.old.table_id }
        ensures view { Becomes (with_row key.now) seat.old.me seat.new.me }
    {
        let row = count as usize;
        let bucket = bucket_of(key);
        self.store_key(seat, row, key);
        self.store_next(seat, row, bucket);
        self.store_head(seat, row, bucket);
        self.store_count(seat, count + 1);
    }

    // A pass that knows all rows.
    pub(crate) fn note_of_rows(&self, seat: &mut Seat) -> Pass
        requires table { seat.old.table_id ≡ id_of self.now }
        requires creates { seat.old.me.0.creates ≡ true }
        requires count { seat.old.me.0.rows.count ≡ length seat.old.me.0.rows.linked }
        ensures table { seat.new.table_id ≡ seat.old.table_id }
        ensures home { home_of result ≡ seat.old.table_id }
        ensures view { seat.new.me ≡ seat.old.me }
        ensures note { view_of result ≡ row_note seat.old.me.0 }
    {
        Pass::new(self.words.shared.split_seat::<NotesRows>(seat))
    }
}
