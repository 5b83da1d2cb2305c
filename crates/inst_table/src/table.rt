//! The table.
ghost use Rattle.std.specs.Prelude.{◌≡◌, [], IfOk};
ghost use Rattle.inst_table.specs.Layout.{width, AreSmall};
ghost use Rattle.inst_table.specs.Views.{blank};

use crate::creator::Creator;
use crate::layout::width;
use crate::pass::Pass;
use crate::publisher::Publisher;
use crate::rule::{Law, SplitsCreator, SplitsPass};
use crate::setup::{Fit, Numbers, Setup};
use crate::view::View;
use std::alloc::{AllocError, Global};

/// A shared table of rows, addresses and a heap.
#[derive(Drop)]
pub struct Table<F: Fit> {
    pub(crate) words: atomic_table::Table<u8, View, Setup<F>, Law<F>, Global>,
    fit: F,
    pub(crate) numbers: Numbers,
    ghost fit_kept: { words.shared.key.fit ≡ fit },
    ghost numbers_kept: { words.shared.key.numbers ≡ numbers },
    ghost sized: { words.shared.table_id.words ≡ width numbers },
    ghost small: { AreSmall numbers },
}

impl<F: Fit> Table<F> {
    ghost use Rattle.inst_table.specs.Names.{fit_of, view_of, rows_of, units_of, ArePartsOf};
    ghost use Rattle.inst_table.specs.Tables.{IsMadeWith};

    /// A table with no row and no code, with room for so many rows and heap words, and its seats.
    pub fn make(
        alloc: Global,
        fit: F,
        rows: u32,
        heap: u64,
    ) -> Result<(Table<F>, Pass, Creator, Publisher), AllocError>
        requires { AreSmall (record { libraries = F.library_count fit; rows = rows; heap = heap }) }
        ensures table { IfOk result (λ made. IsMadeWith fit rows heap made.0) }
        ensures parts { IfOk result (λ made. ArePartsOf made.0 made.2 made.3 made.1) }
        ensures pass { IfOk result (λ made. view_of made.1 ≡ blank) }
        ensures creator { IfOk result (λ made. rows_of made.2 ≡ []) }
        ensures publisher { IfOk result (λ made. units_of made.3 ≡ []) }
    {
        let libraries = fit.libraries();
        let numbers = Numbers {
            libraries,
            rows,
            heap,
        };
        let zeros = vec![in alloc; 0; width(&numbers)]?;
        let setup = Setup { fit, numbers };
        let (words, mut seat) = atomic_table::Table::of_words(alloc, &zeros, &setup)?;
        let Setup { fit, numbers } = setup;
        let creator = words.shared.split_seat::<SplitsCreator>(&mut seat);
        let pass = words.shared.split_seat::<SplitsPass>(&mut seat);
        Ok((
            Table {
                words,
                fit,
                numbers,
            },
            Pass { seat: pass },
            Creator {
                seat: creator,
                count: 0,
            },
            Publisher { seat, end: 0 },
        ))
    }

    /// The value that `make` took.
    pub fn fit(&self) -> &F
        ensures { result.now ≡ fit_of self.now }
    {
        &self.fit
    }
}
