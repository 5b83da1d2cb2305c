//! The end of a table.
ghost use Rattle.std.specs.Prelude.{◌≡◌, ◌≢◌, ℕ, ◌+◌, ◌^◌, ◌<◌, ◌≤◌, [], Some, None, List, length, IfOk, IfErr};
ghost use Rattle.inst_table.specs.Passes.{KnowsKeyOf, KnowsAtLeast};

use crate::KEY_WORDS;
use crate::creator::Creator;
use crate::layout::COUNT;
use crate::pass::Pass;
use crate::publisher::Publisher;
use crate::setup::Fit;
use crate::table::Table;
use std::alloc::{AllocError, Global};
use std::marker::Brand;

/// What a table held.
#[derive(Drop)]
pub struct Closed {
    /// The keys of the rows, in their order.
    pub rows: Vec<[u64; KEY_WORDS]>,
    /// By row, the record of its unit, if that is built.
    pub units: Vec<Option<Vec<u32>>>,
}

/// The parts of a table that couldn't be closed for want of memory.
#[derive(Drop)]
pub struct CloseParts<F: Fit> {
    pub table: Table<F>,
    pub creator: Creator,
    pub publisher: Publisher,
    pub pass: Pass,
}

ghost use Rattle.inst_table.specs.Names.{id_of, room_of, home_of, view_of, rows_of, units_of, ArePartsOf};
ghost use Rattle.inst_table.specs.Closing.{IsSettled, LoadsOn, AreRowsOf, ReadsUnit, ReadsUnits, HoldsUnits, HoldsSettledUnits, ComesBack};

// The record of a row's unit, if it has one.
fn read_unit<F: Fit>(
    alloc: Global,
    table: &Table<F>,
    pass: &mut Pass,
    row: u32,
) -> Result<Option<Vec<u32>>, AllocError>
    requires table { home_of pass.old ≡ id_of table.now }
    requires row { row < room_of table.now }
    requires known { KnowsKeyOf (view_of pass.old) row }
    ensures table { home_of pass.new ≡ home_of pass.old }
    ensures knows { KnowsAtLeast (view_of pass.old) (view_of pass.new) }
    ensures address_loads { LoadsOn pass.old pass.new }
    ensures unit { IfOk result (ReadsUnit table.now pass.old pass.new row) }
{
    match pass.address(table, table.numbers.libraries + row) {
        None => Ok(None),
        Some(address) => Ok(Some(pass.fetch(alloc, table, address)?)),
    }
}

// The records of the units of all rows.
fn read_units<F: Fit>(
    alloc: Global,
    table: &Table<F>,
    pass: &mut Pass,
    count: u32,
) -> Result<Vec<Option<Vec<u32>>>, AllocError>
    requires table { home_of pass.old ≡ id_of table.now }
    requires count { count ≤ room_of table.now }
    requires known { (row : ℕ) → row < count → KnowsKeyOf (view_of pass.old) row }
    ensures table { home_of pass.new ≡ home_of pass.old }
    ensures knows { KnowsAtLeast (view_of pass.old) (view_of pass.new) }
    ensures address_loads { LoadsOn pass.old pass.new }
    ensures units { IfOk result (ReadsUnits table.now pass.old pass.new count) }
{
    let mut units = Vec::with_capacity(alloc, count as usize)?;
    for row in 0..count {
        units.push_reserved(read_unit(alloc, table, pass, row)?);
    }
    Ok(units)
}

// What the pass knows is so, by the creator's and the publisher's records.
fn settle<F: Fit>(table: &Table<F>, creator: Creator, publisher: Publisher, pass: Pass)
    requires { ArePartsOf table.now creator publisher pass }
    ensures { IsSettled creator publisher pass }
{
    let mut pass = pass;
    let other = pass.split(table);
    let Creator { mut seat, count: _ } = creator;
    table.take_in(&mut seat, other);
    table.own_word::<Brand>(&mut seat, COUNT);
    let Publisher {
        seat: mut other,
        end: _,
    } = publisher;
    table.take_in(&mut other, pass);
    table.own_unit_word::<Brand>(&mut other, COUNT);
}

// All that is to be given, in memory of its own.
fn read_all<F: Fit>(
    alloc: Global,
    table: &Table<F>,
    creator: &mut Creator,
    publisher: &mut Publisher,
    pass: &mut Pass,
) -> Result<Closed, AllocError>
    requires { ArePartsOf table.now creator.old publisher.old pass.old }
    ensures table { ArePartsOf table.now creator.new publisher.new pass.new }
    ensures same_rows { rows_of creator.new ≡ rows_of creator.old }
    ensures same_units { units_of publisher.new ≡ units_of publisher.old }
    ensures knows { KnowsAtLeast (view_of pass.old) (view_of pass.new) }
    ensures address_loads { LoadsOn pass.old pass.new }
    ensures rows { IfOk result (λ closed. closed.rows.items ≡ rows_of creator.old) }
    ensures sound { AreRowsOf table.now (rows_of creator.old) }
    ensures units { IfOk result (HoldsSettledUnits table.now creator.old publisher.old pass.new) }
{
    let count = creator.count;
    let rows = table.own_keys(alloc, &mut creator.seat, count)?;
    let note = table.note_of_rows(&mut creator.seat);
    pass.join(table, note);
    let note = table.note_of_units(&mut publisher.seat);
    pass.join(table, note);
    let units = read_units(alloc, table, pass, count)?;
    Ok(Closed { rows, units })
}

/// Closes a table and gives what it held. On refusal for want of memory its parts come back.
pub fn close<F: Fit>(
    alloc: Global,
    table: Table<F>,
    mut creator: Creator,
    mut publisher: Publisher,
    mut pass: Pass,
) -> Result<Closed, (CloseParts<F>, AllocError)>
    requires { ArePartsOf table creator publisher pass }
    ensures rows { IfOk result (λ closed. closed.rows.items ≡ rows_of creator) }
    ensures sound { IfOk result (λ closed. AreRowsOf table closed.rows.items) }
    ensures units { IfOk result (HoldsUnits table creator publisher) }
    ensures known { IfOk result (λ _. IsSettled creator publisher pass) }
    ensures back { IfErr result (λ refused. ComesBack table creator publisher pass refused.0) }
{
    match read_all(alloc, &table, &mut creator, &mut publisher, &mut pass) {
        Ok(closed) => {
            settle(&table, creator, publisher, pass);
            Ok(closed)
        }
        Err(error) => Err((
            CloseParts {
                table,
                creator,
                publisher,
                pass,
            },
            error,
        )),
    }
}
