use crate::IdTable;
use std::alloc::{AllocError, Global};
use std::test::Fail;

/// The greatest bound of a module.
const LAST_BOUND: u32 = 65536;

/// Whether a table for so many values has what it is given at the ids 0 and 1, at those beside the bound, and at the
/// last one of all, and nothing between.
fn keeps(alloc: Global, bound: u32, expected: usize) -> Result<bool, AllocError> {
    let ids = [
        0,
        1,
        bound.wrapping_sub(1),
        bound,
        bound.wrapping_add(1),
        u32::MAX,
    ];
    let mut table = IdTable::new(alloc, bound, expected)?;
    for id in ids {
        if table.contains(id) {
            return Ok(false);
        }
    }
    for id in ids {
        table.insert(id, id ^ 0x5555)?;
    }
    for id in ids {
        if table.get(id) != Some(&(id ^ 0x5555)) {
            return Ok(false);
        }
    }
    Ok(!table.contains(7) && !table.contains(0x8000_0000))
}

#[test]
fn a_table_keeps_what_it_is_given(rt: HostRuntime) -> Result<(), Fail> {
    // a bound of eight times the values, and one more
    assert!(rt; keeps(rt.alloc(), 800, 100)?);
    assert!(rt; keeps(rt.alloc(), 801, 100)?);
    // the greatest module, and one with the greatest bound and few instructions
    assert!(rt; keeps(rt.alloc(), LAST_BOUND, 8192)?);
    assert!(rt; keeps(rt.alloc(), LAST_BOUND, 8191)?);
    // bounds that no memory holds, and none
    assert!(rt; keeps(rt.alloc(), u32::MAX, 16384)?);
    assert!(rt; keeps(rt.alloc(), 100, usize::MAX)?);
    assert!(rt; keeps(rt.alloc(), 20, 0)?);
    Ok(())
}

#[test]
fn a_later_value_takes_the_place_of_an_earlier_one(rt: HostRuntime) -> Result<(), Fail> {
    let mut table = IdTable::new(rt.alloc(), 4, 1)?;
    for (id, value) in [(3, 1), (9, 2), (3, 3), (9, 4), (2, 5)] {
        table.insert(id, value)?;
    }
    assert_eq!(rt; table.get(2), Some(&5));
    assert_eq!(rt; table.get(3), Some(&3));
    assert_eq!(rt; table.get(9), Some(&4));
    assert_eq!(rt; table.get(1), None);
    assert_eq!(rt; table.get(10), None);
    Ok(())
}

#[test]
fn every_id_of_the_greatest_module_has_its_value(rt: HostRuntime) -> Result<(), Fail> {
    let mut table = IdTable::new(rt.alloc(), LAST_BOUND, 16384)?;
    for id in 0..LAST_BOUND {
        table.insert(id, id + 1)?;
    }
    for id in 0..LAST_BOUND {
        assert_eq!(rt; table.get(id), Some(&(id + 1)), "at {id}");
    }
    assert!(rt; !table.contains(LAST_BOUND));
    Ok(())
}

#[test]
fn a_table_holds_values_that_have_to_be_dropped(rt: HostRuntime) -> Result<(), Fail> {
    let mut table = IdTable::new(rt.alloc(), 2, 1)?;
    for id in [1, 1, 2, 2] {
        let mut list = Vec::new(rt.alloc());
        list.push(id)?;
        table.insert(id, list)?;
    }
    assert_eq!(rt; table.get(1).map(|list| list.len()), Some(1));
    assert_eq!(rt; table.get(2).map(|list| list.len()), Some(1));
    Ok(())
}
