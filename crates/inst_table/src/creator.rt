//! What adds rows.
ghost use Rattle.std.specs.Prelude.{◌≡◌, ◌≢◌, ℕ, ◌+◌, ◌≤◌, ◌<◌, [], ◌∷◌, ◌++◌, true, false, length, Contains};
ghost use Rattle.inst_table.specs.Writers.{IsAtRest};

use crate::KEY_WORDS;
use crate::pass::Pass;
use crate::rule::Seat;
use crate::setup::Fit;
use crate::table::Table;

/// The one seat that may add rows.
#[derive(Drop)]
pub struct Creator {
    pub(crate) seat: Seat,
    pub(crate) count: u32,
    ghost bare: { seat.me.1 ≡ [] },
    ghost rests: { IsAtRest seat.me.0 },
    ghost counted: { (seat.me.0.rows.count ≡ count) × (length seat.me.0.rows.linked ≡ count) },
}

/// The answer to a key for which a row is wanted, with a pass that knows the row.
#[derive(Drop)]
pub enum Created {
    /// The row was added.
    New { row: u32, note: Pass },
    /// The row was there.
    Old { row: u32, note: Pass },
    /// There is no room for another row.
    Full(u32),
}

impl Creator {
    ghost use Rattle.inst_table.specs.Names.{creator_home_of, rows_of, id_of, asked_of};
    ghost use Rattle.inst_table.specs.Creations.{IfNew, IfOld, IfFull, IfNote, IsNew, IsOld, IsFull, HasRoomForAll, NotesRow};

    /// The row of the key, which is added where no row has it.
    pub fn create<F: Fit>(&mut self, table: &Table<F>, key: &[u64; KEY_WORDS]) -> Created
        requires table { creator_home_of self.old ≡ id_of table.now }
        requires asked { Contains (asked_of table.now) key.now }
        ensures table { creator_home_of self.new ≡ creator_home_of self.old }
        ensures new { IfNew result (IsNew table.now key.now self.old self.new) }
        ensures old { IfOld result (IsOld table.now key.now self.old self.new) }
        ensures full { IfFull result (IsFull table.now key.now self.old self.new) }
        ensures never_full { HasRoomForAll table.now → IfFull result (λ _. ⊥) }
        ensures note { IfNote result (NotesRow table.now key.now) }
    {
        let count = self.count;
        if let Some(row) = table.row_of(&mut self.seat, key, count) {
            let note = table.note_of_rows(&mut self.seat);
            return Created::Old { row, note };
        }
        if count == table.numbers.rows {
            return Created::Full(count);
        }
        table.append(&mut self.seat, key, count);
        self.count = count + 1;
        let note = table.note_of_rows(&mut self.seat);
        Created::New { row: count, note }
    }
}
