// The steps on addresses and on the heap.
ghost use Rattle.std.specs.Prelude.{◌≡◌, ◌≢◌, ℕ, suc, ◌+◌, ◌-◌, ◌^◌, ◌≤◌, ◌<◌, [], ◌∷◌, ◌++◌, Some, true, false, length, IfOk};
ghost use Rattle.inst_table.specs.Views.{with_address_load, with_record_word, with_heap_word, with_record, with_address, with_unit, joint_view, unit_note};
ghost use Rattle.inst_table.specs.Lawful.{IsOneWay};
ghost use Rattle.inst_table.specs.Units.{heap_of, address_of};
ghost use Rattle.inst_table.specs.Passes.{IsTheKnownAddress, IsKnownUnit, IsInRecord, LearnsWords};
ghost use Rattle.inst_table.specs.Plays.{Becomes, IsOfUnits};
ghost use Rattle.inst_table.specs.Writers.{IsOwnAddress, IsNextHeapPlace, HasHeapFor};
ghost use Rattle.inst_table.specs.AddressLoads.{IsKnownAddress};
ghost use Rattle.inst_table.specs.Tables.{SpeaksOf, KnowsSoundUnits, MayBeRecord, FitsWhenKnown, FitsAt, IsRecordAt};

use crate::layout::{address_place, heap_place, record_place};
use crate::pass::{Address, Pass};
use crate::rule::{
    JoinsPass, LoadsAddressWord, LoadsHeapWord, NotesUnits, ReloadsOwnUnit, Seat, StoresAddress,
    StoresHeapWord, UnitOperands,
};
use crate::setup::Fit;
use crate::table::Table;
use std::alloc::{AllocError, Global};
use std::marker::Brand;

impl<F: Fit> Table<F> {
    ghost use Rattle.inst_table.specs.Names.{id_of, numbers_of, heap_room_of, home_of, view_of};

    pub(crate) fn read_address<K: UnitOperands<F>>(&self, seat: &mut Seat, unit: u32) -> u64
        requires table { seat.old.table_id ≡ id_of self.now }
        requires unit { K.unit ≡ unit }
        requires known { IsKnownUnit (numbers_of self.now) seat.old.me.0 unit }
        ensures table { seat.new.table_id ≡ seat.old.table_id }
        ensures view { Becomes (with_address_load unit result) seat.old.me seat.new.me }
        ensures same { IsTheKnownAddress seat.old.me.0 unit result }
        ensures one_way { IsOneWay seat.new.me.0.address_loads }
    {
        self.words
            .shared
            .load::<LoadsAddressWord<F, K>>(seat, address_place(&self.numbers, unit))
    }

    // A word of the record at an address word.
    fn read_record<K: UnitOperands<F>>(&self, seat: &mut Seat, address: Address, at: u64) -> u32
        requires table { seat.old.table_id ≡ id_of self.now }
        requires operands { SpeaksOf K.fit K.numbers self.now }
        requires place { (K.unit ≡ address.unit) × (K.word ≡ address.word) × (K.at ≡ at) }
        requires known { IsKnownAddress seat.old.me.0 address }
        requires inside { IsInRecord seat.old.me.0 address.word at }
        ensures table { seat.new.table_id ≡ seat.old.table_id }
        ensures view { Becomes (with_record_word address.word at result) seat.old.me seat.new.me }
        ensures fits { FitsWhenKnown self.now seat.new.me.0 address }
    {
        let place = record_place(&self.numbers, address.word, at);
        self.words.shared.load::<LoadsHeapWord<F, K>>(seat, place) as u32
    }

    pub(crate) fn read_whole(
        &self,
        alloc: Global,
        seat: &mut Seat,
        address: Address,
    ) -> Result<Vec<u32>, AllocError>
        requires table { seat.old.table_id ≡ id_of self.now }
        requires known { IsKnownAddress seat.old.me.0 address }
        ensures table { seat.new.table_id ≡ seat.old.table_id }
        ensures rights { seat.new.me.1 ≡ seat.old.me.1 }
        ensures learns { LearnsWords seat.old.me.0 seat.new.me.0 }
        ensures record { IfOk result (IsRecordAt seat.new.me.0 address) }
        ensures fits { IfOk result (FitsAt self.now seat.new.me.0 address) }
    {
        let first = self.read_record::<Brand>(seat, address, 0);
        let second = self.read_record::<Brand>(seat, address, 1);
        let len = 2 + first as u64 + second as u64;
        let mut words = Vec::with_capacity(alloc, len as usize)?;
        words.push_reserved(first);
        words.push_reserved(second);
        for at in 2..len {
            words.push_reserved(self.read_record::<Brand>(seat, address, at));
        }
        Ok(words)
    }

    // A word of the units, for the publisher, who knows what it is.
    pub(crate) fn own_unit_word<K: UnitOperands<F>>(&self, seat: &mut Seat, word: usize) -> u64
        requires table { seat.old.table_id ≡ id_of self.now }
        requires inside { word < (id_of self.now).words }
        requires publishes { seat.old.me.0.publishes ≡ true }
        requires operands { SpeaksOf K.fit K.numbers self.now }
        ensures table { seat.new.table_id ≡ seat.old.table_id }
        ensures view { seat.new.me ≡ seat.old.me }
        ensures word { IsOfUnits (numbers_of self.now) seat.old.me.0.units word result }
        ensures sound { KnowsSoundUnits self.now seat.old.me.0 }
    {
        self.words.shared.load::<ReloadsOwnUnit<F, K>>(seat, word)
    }

    pub(crate) fn own_address(&self, seat: &mut Seat, unit: u32) -> u64
        requires table { seat.old.table_id ≡ id_of self.now }
        requires publishes { seat.old.me.0.publishes ≡ true }
        ensures table { seat.new.table_id ≡ seat.old.table_id }
        ensures view { seat.new.me ≡ seat.old.me }
        ensures word { IsOwnAddress (numbers_of self.now) seat.old.me.0.units unit result }
        ensures sound { KnowsSoundUnits self.now seat.old.me.0 }
    {
        self.own_unit_word::<Brand>(seat, address_place(&self.numbers, unit))
    }

    fn store_heap_word(&self, seat: &mut Seat, at: u64, word: u32)
        requires table { seat.old.table_id ≡ id_of self.now }
        requires publishes { seat.old.me.0.publishes ≡ true }
        requires room { IsNextHeapPlace (heap_room_of self.now) seat.old.me.0.units at }
        ensures table { seat.new.table_id ≡ seat.old.table_id }
        ensures view { Becomes (with_heap_word word) seat.old.me seat.new.me }
    {
        let place = heap_place(&self.numbers, at);
        self.words
            .shared
            .store::<StoresHeapWord>(seat, place, word as u64);
    }

    fn store_record(&self, seat: &mut Seat, end: u64, words: &[u32])
        requires table { seat.old.table_id ≡ id_of self.now }
        requires publishes { (seat.old.me.0.publishes ≡ true)
            × (seat.old.me.0.units.partly ≡ []) }
        requires room { HasHeapFor (heap_room_of self.now) seat.old.me.0.units end words.now }
        ensures table { seat.new.table_id ≡ seat.old.table_id }
        ensures view { Becomes (with_record words.now) seat.old.me seat.new.me }
    {
        for (at, word) in words.iter().enumerate() {
            self.store_heap_word(seat, end + at as u64, *word);
        }
    }

    fn store_address<K: UnitOperands<F>>(&self, seat: &mut Seat, unit: u32, word: u64)
        requires table { seat.old.table_id ≡ id_of self.now }
        requires publishes { seat.old.me.0.publishes ≡ true }
        requires unit { (K.unit ≡ unit) × (address_of seat.old.me.0.units.built unit ≡ 0) }
        requires record { MayBeRecord self.now seat.old.me.0 unit seat.old.me.0.units.partly }
        requires word { word ≡ 1 + length (heap_of seat.old.me.0.units.built) }
        ensures table { seat.new.table_id ≡ seat.old.table_id }
        ensures view { Becomes (with_address unit) seat.old.me seat.new.me }
    {
        let place = address_place(&self.numbers, unit);
        self.words
            .shared
            .store::<StoresAddress<F, K>>(seat, place, word);
    }

    // Publishes a record: first its words, then the address word.
    pub(crate) fn accept(&self, seat: &mut Seat, unit: u32, end: u64, words: &[u32])
        requires table { seat.old.table_id ≡ id_of self.now }
        requires publishes { (seat.old.me.0.publishes ≡ true)
            × (seat.old.me.0.units.partly ≡ []) }
        requires gap { address_of seat.old.me.0.units.built unit ≡ 0 }
        requires room { HasHeapFor (heap_room_of self.now) seat.old.me.0.units end words.now }
        requires record { MayBeRecord self.now seat.old.me.0 unit words.now }
        ensures table { seat.new.table_id ≡ seat.old.table_id }
        ensures view { Becomes (with_unit unit words.now) seat.old.me seat.new.me }
    {
        self.store_record(seat, end, words);
        self.store_address::<Brand>(seat, unit, end + 1);
    }

    pub(crate) fn take_in(&self, seat: &mut Seat, by: Pass)
        requires table { seat.old.table_id ≡ id_of self.now }
        requires home { home_of by ≡ id_of self.now }
        ensures table { seat.new.table_id ≡ seat.old.table_id }
        ensures view { seat.new.me ≡ (joint_view seat.old.me.0 (view_of by), seat.old.me.1) }
    {
        let Pass { seat: other } = by;
        self.words.shared.join_seat::<JoinsPass>(seat, other);
    }

    // A pass that knows all addresses.
    pub(crate) fn note_of_units(&self, seat: &mut Seat) -> Pass
        requires table { seat.old.table_id ≡ id_of self.now }
        requires publishes { seat.old.me.0.publishes ≡ true }
        ensures table { seat.new.table_id ≡ seat.old.table_id }
        ensures home { home_of result ≡ seat.old.table_id }
        ensures view { seat.new.me ≡ seat.old.me }
        ensures note { view_of result ≡ unit_note seat.old.me.0 }
    {
        Pass::new(self.words.shared.split_seat::<NotesUnits>(seat))
    }
}
