use limits::MODULE_WORDS;
use sample_modules::frame::{FRONT, add, words_of};
use spirv_model::op;
use spv_check::check;
use std::alloc::{AllocError, Global};
use std::test::Fail;

/// The words of a module with so many sums, whose ids begin at 100, and two stores.
fn sums(alloc: Global, count: u32) -> Result<Vec<u32>, AllocError> {
    let mut words = words_of(alloc, &FRONT, 10_000)?;
    add(
        &mut words,
        &[(op::FUNCTION, &[1, 7, 0, 2]), (op::LABEL, &[20])],
    )?;
    for k in 0..count.min(9000) {
        add(&mut words, &[(op::I_ADD, &[3, 100 + k, 11, 11])])?;
    }
    add(&mut words, &[(op::STORE, &[5, 11]), (op::STORE, &[5, 11])])?;
    add(&mut words, &[(op::RETURN, &[]), (op::FUNCTION_END, &[])])?;
    Ok(words)
}

#[test]
fn a_module_of_the_greatest_size_is_accepted(rt: HostRuntime) -> Result<(), Fail> {
    let words = sums(rt.alloc(), 3265)?;
    assert_eq!(rt; words.len(), MODULE_WORDS);
    let module = check(rt.alloc(), &words)?;
    assert_eq!(rt; module.insts().len(), 3282);
    Ok(())
}
