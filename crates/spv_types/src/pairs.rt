//! Maps and sets whose keys are pairs of numbers.
ghost use Rattle.std.specs.Prelude.{OnOk};
ghost use Rattle.spv_types.specs.Pairs.{AddsPair, KeepsFirst};

use std::alloc::AllocError;
use std::collections::{BTreeMap, BTreeSet};

/// A word by an id and a number.
pub type Pairs = BTreeMap<(u32, usize), u32>;

/// Pairs of an id and a number, or of two numbers.
pub type PairSet = BTreeSet<(u32, u32)>;

/// Keeps the word, where there is none yet.
pub fn keep_first(map: &mut Pairs, a: u32, b: usize, word: u32) -> Result<(), AllocError>
    ensures { OnOk result (KeepsFirst a b word map.old map.new) }
{
    if !map.contains_key(&(a, b)) {
        map.insert((a, b), word)?;
    }
    Ok(())
}

/// Adds the pair.
pub fn add_pair(set: &mut PairSet, a: u32, b: u32) -> Result<(), AllocError>
    ensures { OnOk result (AddsPair a b set.old set.new) }
{
    set.insert((a, b))?;
    Ok(())
}
