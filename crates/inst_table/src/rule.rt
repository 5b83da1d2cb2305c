//! The rule of the table, and the names of its steps.
ghost use Rattle.std.specs.Prelude.{ℕ, List, [], Option, None};

use crate::setup::{Fit, Setup};
use crate::view::View;
use atomic_table::{Join, Play, Split, TableRule};
use std::marker::{Brand, PhantomData};

pub(crate) type Seat = atomic_table::Seat<u8, View>;

pub(crate) struct Law<F> {
    marker: PhantomData<F>,
}

impl<F: Fit> TableRule<u8, View, Setup<F>> for Law<F> {
    ghost use Rattle.inst_table.specs.Lawful.{Lawful};
    ghost use Rattle.inst_table.specs.Views.{beginning};

    ghost holds = { λ setup. Lawful (F.asked setup.fit) (F.fits setup.fit) setup.numbers };

    ghost first = { λ _. beginning };
}

// What a step is about, which the step can't see: the room of the table, the key that is looked for and the number of
// rows among which it is.
pub(crate) trait LookUpOperands {
    ghost room: { ℕ };

    ghost key: { List ℕ };

    ghost below: { ℕ };
}

impl LookUpOperands for Brand {
    ghost room = { 0 };

    ghost key = { [] };

    ghost below = { 0 };
}

pub(crate) struct LoadsCount<K> {
    marker: PhantomData<K>,
}

impl<K: LookUpOperands> Play<u8, View> for LoadsCount<K> {
    ghost use Rattle.inst_table.specs.Plays.{CountLoad};

    ghost then = { CountLoad K.room };
}

pub(crate) struct LoadsHead<K> {
    marker: PhantomData<K>,
}

impl<K: LookUpOperands> Play<u8, View> for LoadsHead<K> {
    ghost use Rattle.inst_table.specs.Plays.{HeadLoad};

    ghost then = { HeadLoad K.room K.key K.below };
}

pub(crate) struct LoadsNext<K> {
    marker: PhantomData<K>,
}

impl<K: LookUpOperands> Play<u8, View> for LoadsNext<K> {
    ghost use Rattle.inst_table.specs.Plays.{NextLoad};

    ghost then = { NextLoad K.room K.key K.below };
}

pub(crate) struct LoadsKeyWord;

impl Play<u8, View> for LoadsKeyWord {
    ghost use Rattle.inst_table.specs.Plays.{KeyWordLoad};

    ghost then = { KeyWordLoad };
}

// A new pass knows what the seat knows.
pub(crate) struct SplitsPass;

impl Split<View> for SplitsPass {
    ghost use Rattle.inst_table.specs.Views.{split_view};

    ghost left = { λ v. v };

    ghost right = { split_view };
}

pub(crate) struct NotesRows;

impl Split<View> for NotesRows {
    ghost use Rattle.inst_table.specs.Views.{row_note};

    ghost left = { λ v. v };

    ghost right = { row_note };
}

pub(crate) struct NotesUnits;

impl Split<View> for NotesUnits {
    ghost use Rattle.inst_table.specs.Views.{unit_note};

    ghost left = { λ v. v };

    ghost right = { unit_note };
}

// The right to create goes to a seat of its own.
pub(crate) struct SplitsCreator;

impl Split<View> for SplitsCreator {
    ghost use Rattle.inst_table.specs.Views.{without_creation, creation_alone};

    ghost left = { without_creation };

    ghost right = { creation_alone };
}

pub(crate) struct JoinsPass;

impl Join<View> for JoinsPass {
    ghost use Rattle.inst_table.specs.Views.{joint_view, blank};

    ghost both = { joint_view };

    ghost spent = { blank };
}

// The keys that may be asked, and the room of the table.
pub(crate) trait RowOperands {
    ghost asked: { List (List ℕ) };

    ghost room: { ℕ };
}

impl RowOperands for Brand {
    ghost asked = { [] };

    ghost room = { 0 };
}

pub(crate) struct ReloadsOwnRow<K> {
    marker: PhantomData<K>,
}

impl<K: RowOperands> Play<u8, View> for ReloadsOwnRow<K> {
    ghost use Rattle.inst_table.specs.Plays.{RowReload};

    ghost then = { RowReload K.asked K.room };
}

pub(crate) struct StoresKeyWord;

impl Play<u8, View> for StoresKeyWord {
    ghost use Rattle.inst_table.specs.Plays.{KeyWordStore};

    ghost then = { KeyWordStore };
}

pub(crate) struct StoresNext;

impl Play<u8, View> for StoresNext {
    ghost use Rattle.inst_table.specs.Plays.{NextStore};

    ghost then = { NextStore };
}

pub(crate) struct StoresHead;

impl Play<u8, View> for StoresHead {
    ghost use Rattle.inst_table.specs.Plays.{HeadStore};

    ghost then = { HeadStore };
}

pub(crate) struct StoresCount;

impl Play<u8, View> for StoresCount {
    ghost use Rattle.inst_table.specs.Plays.{CountStore};

    ghost then = { CountStore };
}

// What the value of `Fit` says, the numbers of the table, a unit, its address word and a place in its record.
pub(crate) trait UnitOperands<F> {
    ghost use Rattle.inst_table.specs.declared.setup.Numbers.{Numbers};

    ghost fit: { Option F };

    ghost numbers: { Numbers };

    ghost unit: { ℕ };

    ghost word: { ℕ };

    ghost at: { ℕ };
}

impl<F> UnitOperands<F> for Brand {
    ghost use Rattle.inst_table.specs.declared.setup.Numbers.{Numbers};

    ghost fit = { None };

    ghost numbers = { record { libraries = 0; rows = 0; heap = 0 } };

    ghost unit = { 0 };

    ghost word = { 0 };

    ghost at = { 0 };
}

pub(crate) struct LoadsAddressWord<F, K> {
    marker: PhantomData<(F, K)>,
}

impl<F, K: UnitOperands<F>> Play<u8, View> for LoadsAddressWord<F, K> {
    ghost use Rattle.inst_table.specs.Plays.{AddressLoad};

    ghost then = { AddressLoad K.unit };
}

pub(crate) struct LoadsHeapWord<F, K> {
    marker: PhantomData<(F, K)>,
}

impl<F: Fit, K: UnitOperands<F>> Play<u8, View> for LoadsHeapWord<F, K> {
    ghost use Rattle.inst_table.specs.Plays.{HeapLoad, fits_by};

    ghost then = { HeapLoad (fits_by F.fits K.fit) K.numbers K.unit K.word K.at };
}

pub(crate) struct ReloadsOwnUnit<F, K> {
    marker: PhantomData<(F, K)>,
}

impl<F: Fit, K: UnitOperands<F>> Play<u8, View> for ReloadsOwnUnit<F, K> {
    ghost use Rattle.inst_table.specs.Plays.{UnitReload, asked_by, fits_by, longest_by};

    ghost then = { UnitReload (asked_by F.asked K.fit) (fits_by F.fits K.fit) (longest_by F.longest K.fit) K.numbers };
}

pub(crate) struct StoresHeapWord;

impl Play<u8, View> for StoresHeapWord {
    ghost use Rattle.inst_table.specs.Plays.{HeapStore};

    ghost then = { HeapStore };
}

pub(crate) struct StoresAddress<F, K> {
    marker: PhantomData<(F, K)>,
}

impl<F, K: UnitOperands<F>> Play<u8, View> for StoresAddress<F, K> {
    ghost use Rattle.inst_table.specs.Plays.{AddressStore};

    ghost then = { AddressStore K.unit };
}
