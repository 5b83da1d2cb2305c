//! What a module's level and its whole list tell a pass.
ghost use Rattle.std.specs.Prelude.{IfOk};
ghost use Rattle.spec_fold.specs.Facts.{AreFactsOf};

use crate::loops::{left_loops, loop_headers, loop_merges};
use crate::marks::Marks;
use crate::within::left_within;
use id_table::IdTable;
use spv_check::{Module, limits_of};
use spv_rewrite::{block_ends, function_place};
use std::alloc::{AllocError, Global};

/// A module without specialization constants, the locations at which inputs are zeros, and what is found before the pass.
#[derive(Drop)]
pub struct Facts<'a> {
    pub of: &'a Module,
    pub zeros: &'a [u32],
    /// The place of OpFunction.
    pub function: usize,
    /// The places of the terminators, by the labels of their blocks.
    pub ends: IdTable<u32>,
    /// The end of the innermost sequence that has it, for each place.
    pub limits: Vec<u32>,
    /// The merge blocks of the loops.
    pub loops: Marks,
    /// The merge blocks of the loops that are left at once.
    pub left: Marks,
    /// The headers of the loops that stay.
    pub heads: Marks,
    /// The merge blocks of the OpSwitches without literals whose arm is left from within.
    pub within: Marks,
}

/// The facts of a module, where inputs are zeros at these locations.
pub fn facts_of<'a>(
    alloc: Global,
    of: &'a Module,
    zeros: &'a [u32],
) -> Result<Facts<'a>, AllocError>
    ensures { IfOk result (AreFactsOf of.now zeros.now) }
{
    let insts = of.insts();
    let function = function_place(insts);
    let ends = block_ends(alloc, of.bound(), insts)?;
    let limits = limits_of(alloc, of.body(), insts)?;
    let loops = loop_merges(alloc, of)?;
    let left = left_loops(alloc, of, &loops)?;
    let heads = loop_headers(alloc, of, &left)?;
    let within = left_within(alloc, of, limits.as_slice())?;
    Ok(Facts {
        of,
        zeros,
        function,
        ends,
        limits,
        loops,
        left,
        heads,
        within,
    })
}
