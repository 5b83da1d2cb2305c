//! Shaders are accepted, and told with their stage, their interface and the numbers of their specialization constants. What
//! is expected is read off their source.
use sample_modules::shader_words::{
    FLAT_INPUTS, LOOP, NESTED, NUMBER, POINT, PUSH_CONSTANTS, SWITCH, UNIFORM_BLOCK, VERTEX_OUTPUTS,
};
use spv_check::{Stage, check};
use state_model::Iface;
use std::test::Fail;

/// The components at the first two locations: 0 where there are none, and 10 more where they are signed.
fn first_slots(iface: &Iface) -> (u8, u8) {
    (slot(iface, 0), slot(iface, 1))
}

fn slot(iface: &Iface, location: usize) -> u8 {
    match iface.slots.get(location) {
        Some(Some(slot)) if slot.signed => slot.comps.min(9) + 10,
        Some(Some(slot)) => slot.comps,
        _ => 0,
    }
}

#[test]
fn a_point_has_no_interface(rt: HostRuntime) -> Result<(), Fail> {
    let module = check(rt.alloc(), &POINT)?;
    assert_eq!(rt; module.stage(), Stage::Vertex);
    assert_eq!(rt; first_slots(module.inputs()), (0, 0));
    assert_eq!(rt; first_slots(module.outputs()), (0, 0));
    assert_eq!(rt; module.spec_ids(), [0u32; 0].as_slice());
    Ok(())
}

#[test]
fn a_number_is_one_output(rt: HostRuntime) -> Result<(), Fail> {
    let module = check(rt.alloc(), &NUMBER)?;
    assert_eq!(rt; module.stage(), Stage::Fragment);
    assert_eq!(rt; first_slots(module.inputs()), (0, 0));
    assert_eq!(rt; first_slots(module.outputs()), (1, 0));
    assert_eq!(rt; module.spec_ids(), [0u32; 0].as_slice());
    Ok(())
}

#[test]
fn flat_inputs_are_three_words_and_one(rt: HostRuntime) -> Result<(), Fail> {
    let module = check(rt.alloc(), &FLAT_INPUTS)?;
    assert_eq!(rt; module.stage(), Stage::Fragment);
    assert_eq!(rt; first_slots(module.inputs()), (3, 1));
    assert_eq!(rt; first_slots(module.outputs()), (4, 0));
    assert_eq!(rt; module.spec_ids(), [0u32; 0].as_slice());
    Ok(())
}

#[test]
fn a_loop_over_a_push_constant_leaves_a_word(rt: HostRuntime) -> Result<(), Fail> {
    let module = check(rt.alloc(), &LOOP)?;
    assert_eq!(rt; module.stage(), Stage::Fragment);
    assert_eq!(rt; first_slots(module.inputs()), (0, 0));
    assert_eq!(rt; first_slots(module.outputs()), (1, 0));
    assert_eq!(rt; module.spec_ids(), [0u32; 0].as_slice());
    Ok(())
}

#[test]
fn nested_selections_take_three_integers(rt: HostRuntime) -> Result<(), Fail> {
    let module = check(rt.alloc(), &NESTED)?;
    assert_eq!(rt; module.stage(), Stage::Fragment);
    assert_eq!(rt; first_slots(module.inputs()), (13, 0));
    assert_eq!(rt; first_slots(module.outputs()), (11, 0));
    assert_eq!(rt; module.spec_ids(), [0u32; 0].as_slice());
    Ok(())
}

#[test]
fn push_constants_are_no_inputs(rt: HostRuntime) -> Result<(), Fail> {
    let module = check(rt.alloc(), &PUSH_CONSTANTS)?;
    assert_eq!(rt; module.stage(), Stage::Fragment);
    assert_eq!(rt; first_slots(module.inputs()), (0, 0));
    assert_eq!(rt; first_slots(module.outputs()), (12, 0));
    assert_eq!(rt; module.spec_ids(), [0u32; 0].as_slice());
    Ok(())
}

#[test]
fn a_switch_has_a_specialization_constant(rt: HostRuntime) -> Result<(), Fail> {
    let module = check(rt.alloc(), &SWITCH)?;
    assert_eq!(rt; module.stage(), Stage::Fragment);
    assert_eq!(rt; first_slots(module.inputs()), (11, 0));
    assert_eq!(rt; first_slots(module.outputs()), (11, 0));
    assert_eq!(rt; module.spec_ids(), [4].as_slice());
    Ok(())
}

#[test]
fn a_uniform_block_is_no_input(rt: HostRuntime) -> Result<(), Fail> {
    let module = check(rt.alloc(), &UNIFORM_BLOCK)?;
    assert_eq!(rt; module.stage(), Stage::Fragment);
    assert_eq!(rt; first_slots(module.inputs()), (0, 0));
    assert_eq!(rt; first_slots(module.outputs()), (2, 0));
    assert_eq!(rt; module.spec_ids(), [0u32; 0].as_slice());
    Ok(())
}

#[test]
fn vertex_indices_have_no_location(rt: HostRuntime) -> Result<(), Fail> {
    let module = check(rt.alloc(), &VERTEX_OUTPUTS)?;
    assert_eq!(rt; module.stage(), Stage::Vertex);
    assert_eq!(rt; first_slots(module.inputs()), (12, 0));
    assert_eq!(rt; first_slots(module.outputs()), (13, 0));
    assert_eq!(rt; module.spec_ids(), [0u32; 0].as_slice());
    Ok(())
}

#[test]
fn a_copy_is_the_same_module(rt: HostRuntime) -> Result<(), Fail> {
    let module = check(rt.alloc(), &NUMBER)?;
    let copy = module.copy(rt.alloc())?;
    assert_eq!(rt; copy.insts().len(), module.insts().len());
    assert_eq!(rt; copy.bound(), 9);
    assert_eq!(rt; first_slots(copy.outputs()), (1, 0));
    Ok(())
}
