//! Where the words of a block stand in its buffer or among the push constants.
ghost use Rattle.std.specs.Prelude.{◌≡◌, ◌+◌, ◌≤◌, ◌^◌, ◌++◌, IfOk, OnOk};
ghost use Rattle.valid_model.specs.Meanings.{meaning};
ghost use Rattle.stage_model.specs.Program as program;
ghost use Rattle.stage_model.specs.Program.{component_offsets, member_offsets, pointee, program_of, shifted};
ghost use Rattle.spv_exec.specs.BlockOffsets.{element_offsets};

use crate::module_frame::ModuleFrame;
use crate::origins::{offset, stride};
use std::alloc::{AllocError, Global};
use valid_model::{Meaning, Shape};

/// Adds those of an integer or a vector of integers that stands at this byte.
fn add_components(offsets: &mut Vec<u64>, meaning: &Meaning, by: u64) -> Result<(), AllocError>
    requires { by + 1024 ≤ 2 ^ 64 }
    ensures { OnOk result (offsets.new.items
        ≡ offsets.old.items ++ shifted by (component_offsets meaning.now)) }
{
    match meaning {
        Meaning::Shape(Shape::Int { .. }) => offsets.push(by)?,
        Meaning::Shape(Shape::IntVector { comps, .. }) => {
            for i in 0..*comps {
                offsets.push(by + 4 * u64::from(i))?;
            }
        }
        _ => {}
    }
    Ok(())
}

/// Adds those of so many elements, which stand so many bytes apart.
fn add_elements(
    offsets: &mut Vec<u64>,
    meaning: &Meaning,
    count: u32,
    stride: u32,
    by: u32,
) -> Result<(), AllocError>
    ensures { OnOk result (offsets.new.items ≡ offsets.old.items
        ++ shifted by (element_offsets meaning.now stride count)) }
{
    for i in 0..count {
        add_components(
            offsets,
            meaning,
            u64::from(by) + u64::from(i) * u64::from(stride),
        )?;
    }
    Ok(())
}

/// Adds those of a member of this type.
#[tactic(auto, unfolding(stage_model::specs::Program::program_of))]
fn add_member(
    offsets: &mut Vec<u64>,
    of: &ModuleFrame<'_>,
    ty: u32,
    by: u32,
) -> Result<(), AllocError>
    ensures { OnOk result (offsets.new.items ≡ offsets.old.items
        ++ shifted by (member_offsets (program_of of.now.insts) ty (meaning of.now.insts ty))) }
{
    match of.meaning(ty) {
        Meaning::Shape(Shape::Array { elem, len }) => {
            let stride = stride(of, ty).unwrap_or(0);
            add_elements(offsets, of.meaning(*elem), *len, stride, by)
        }
        meaning => add_components(offsets, meaning, u64::from(by)),
    }
}

/// Those of a structure's members.
fn members_offsets(
    alloc: Global,
    of: &ModuleFrame<'_>,
    block: u32,
    members: &[u32],
) -> Result<Vec<u64>, AllocError>
    ensures { IfOk result (λ offsets. offsets.items
        ≡ program.members_offsets (program_of of.now.insts) block 0 members.now) }
{
    let mut offsets = Vec::new(alloc);
    for member in 0..members.len() {
        let by = offset(of, block, member).unwrap_or(0);
        add_member(&mut offsets, of, members[member], by)?;
    }
    Ok(offsets)
}

/// Where each word of the block that a type of this meaning points to stands, in bytes.
#[tactic(auto, unfolding(stage_model::specs::Program::block_offsets, stage_model::specs::Program::program_of))]
pub fn block_offsets(
    alloc: Global,
    of: &ModuleFrame<'_>,
    pointer: &Meaning,
) -> Result<Vec<u64>, AllocError>
    ensures { IfOk result (λ offsets. offsets.items
        ≡ program.block_offsets (program_of of.now.insts) (pointee pointer.now)) }
{
    let Meaning::Shape(Shape::Pointer { to, .. }) = pointer else {
        return Ok(Vec::new(alloc));
    };
    match of.meaning(*to) {
        Meaning::Shape(Shape::Struct { members }) => {
            members_offsets(alloc, of, *to, members.list.as_slice())
        }
        _ => Ok(Vec::new(alloc)),
    }
}
