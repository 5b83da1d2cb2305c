//! What adds code.
ghost use Rattle.std.specs.Prelude.{◌≡◌, ◌≢◌, ℕ, ◌+◌, ◌≤◌, ◌<◌, [], ◌∷◌, ◌++◌, true, false, length};
ghost use Rattle.inst_table.specs.Units.{heap_of};

use crate::pass::{Address, Pass};
use crate::rule::Seat;
use crate::setup::Fit;
use crate::table::Table;

/// The one seat that may publish the records of units.
#[derive(Drop)]
pub struct Publisher {
    pub(crate) seat: Seat,
    pub(crate) end: u64,
    ghost bare: { seat.me.1 ≡ [] },
    ghost publishes: { seat.me.0.publishes ≡ true },
    ghost rests: { (seat.me.0.units.partly ≡ []) × (length (heap_of seat.me.0.units.built) ≡ end) },
}

/// The answer to a record that is to be published, with a pass that knows the address.
#[derive(Drop)]
pub enum Published {
    /// The record is the unit's.
    Accepted { address: Address, note: Pass },
    /// The unit had one before.
    Already { address: Address, note: Pass },
    /// There is no room for the record. So many heap words are taken.
    HeapFull(u64),
}

impl Publisher {
    ghost use Rattle.inst_table.specs.Names.{publisher_home_of, id_of, home_of};
    ghost use Rattle.inst_table.specs.Publications.{IfAccepted, IfAlready, IfHeapFull, IfAddress, Accepts, IsAlready, IsHeapFull, NotesAddress, HasHeapForAll, MayBePublished};

    /// Publishes the record of a unit, if the unit has none. `by` knows the unit's row, if it is no library's.
    pub fn publish<F: Fit>(
        &mut self,
        table: &Table<F>,
        unit: u32,
        by: Pass,
        words: &[u32],
    ) -> Published
        requires table { publisher_home_of self.old ≡ id_of table.now }
        requires by { home_of by ≡ id_of table.now }
        requires record { MayBePublished table.now by unit words.now }
        ensures table { publisher_home_of self.new ≡ publisher_home_of self.old }
        ensures accepted { IfAccepted result (Accepts table.now unit words.now self.old self.new) }
        ensures already { IfAlready result (IsAlready unit self.old self.new) }
        ensures full { IfHeapFull result (IsHeapFull table.now unit words.now self.old self.new) }
        ensures never_full { HasHeapForAll table.now → IfHeapFull result (λ _. ⊥) }
        ensures note { IfAddress result (NotesAddress table.now unit by) }
    {
        table.take_in(&mut self.seat, by);
        let word = table.own_address(&mut self.seat, unit);
        if word != 0 {
            let note = table.note_of_units(&mut self.seat);
            return Published::Already {
                address: Address { unit, word },
                note,
            };
        }
        let end = self.end;
        let after = end + words.len() as u64;
        if after > table.numbers.heap {
            return Published::HeapFull(end);
        }
        table.accept(&mut self.seat, unit, end, words);
        self.end = after;
        let note = table.note_of_units(&mut self.seat);
        Published::Accepted {
            address: Address {
                unit,
                word: end + 1,
            },
            note,
        }
    }
}
