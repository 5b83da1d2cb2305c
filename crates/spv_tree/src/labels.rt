ghost use Rattle.std.specs.Prelude.{◌≡◌, ℕ, ◌==◌, ◌&&◌, ◌||◌, List, IfOk, OnOk};
ghost use Rattle.std.specs.Ordering.{nat_cmp};
ghost use Rattle.std.specs.BTreeSet.{contains};
ghost use Rattle.spirv_model.specs.declared.op.TheConstants.{LABEL};
ghost use Rattle.spirv_model.specs.Operands.{word_at};
ghost use Rattle.body_model.specs.Due as spec;
ghost use Rattle.body_model.specs.Due.{only};
ghost use Rattle.spv_tree.specs.Barred.{HasLabels};
ghost use Rattle.spv_tree.specs.Parts as parts;
ghost use Rattle.spv_tree.specs.Parts.{IsArmLabel, MarksLabels};

use body_model::TreeFault;
use spirv_model::{Inst, op};
use std::alloc::{AllocError, Global};
use std::collections::BTreeSet;

/// For each place whether an OpLabel stands there whose label stood before.
pub fn repeated_labels(alloc: Global, insts: &[Inst]) -> Result<Vec<bool>, AllocError>
    ensures { IfOk result (λ marks. MarksLabels insts.now marks.items) }
{
    let mut seen = BTreeSet::new(alloc);
    let mut marks = Vec::new(alloc);
    for inst in insts {
        let is_repeated = see(&mut seen, inst)?;
        marks.push(is_repeated)?;
    }
    Ok(marks)
}

/// Whether the instruction is an OpLabel of a label that was seen. It is seen from now on.
fn see(seen: &mut BTreeSet<u32>, inst: &Inst) -> Result<bool, AllocError>
    ensures before { IfOk result (λ is_repeated. is_repeated
        ≡ ((inst.now.op == LABEL) && contains nat_cmp seen.old (word_at 0 inst.now))) }
    ensures now { OnOk result ((label : ℕ) → contains nat_cmp seen.new label
        ≡ (((inst.now.op == LABEL) && (word_at 0 inst.now == label)) || contains nat_cmp seen.old label)) }
{
    if inst.op != op::LABEL {
        return Ok(false);
    }
    let is_new = seen.insert(inst.word(0))?;
    Ok(!is_new)
}

/// Why the block that is due at a place isn't there.
pub fn missing(
    insts: &[Inst],
    repeated: &[bool],
    wanted: Option<u32>,
    place: u32,
) -> Option<TreeFault>
    requires { MarksLabels insts.now repeated.now }
    ensures { result ≡ spec.missing insts.now (only wanted) place }
{
    let at = place as usize;
    if at >= insts.len() {
        return Some(TreeFault::BadBlock(place));
    }
    let inst = &insts[at];
    match wanted {
        None => misses(inst, repeated[at], true, TreeFault::BadBlock(place), place),
        Some(label) => {
            let is_wanted = inst.word(0) == label;
            misses(
                inst,
                repeated[at],
                is_wanted,
                TreeFault::BadMerge(place),
                place,
            )
        }
    }
}

/// The label of the arm that stands at a place, of those that are left.
pub fn arm_label(
    insts: &[Inst],
    repeated: &[bool],
    left: &BTreeSet<u32>,
    place: u32,
) -> Result<u32, TreeFault>
    requires { MarksLabels insts.now repeated.now }
    ensures { (labels : List ℕ) → HasLabels left.now labels
        → IsArmLabel insts.now labels place result }
{
    let at = place as usize;
    if at >= insts.len() {
        return Err(TreeFault::BadBlock(place));
    }
    let inst = &insts[at];
    let label = inst.word(0);
    let is_left = left.contains(&label);
    match misses(
        inst,
        repeated[at],
        is_left,
        TreeFault::BadMerge(place),
        place,
    ) {
        None => Ok(label),
        Some(fault) => Err(fault),
    }
}

/// Why an instruction isn't an OpLabel that is due, where its label stood before or not and is wanted or not.
fn misses(
    inst: &Inst,
    is_repeated: bool,
    is_wanted: bool,
    at_end: TreeFault,
    place: u32,
) -> Option<TreeFault>
    ensures { result ≡ parts.misses inst.now is_repeated is_wanted at_end place }
{
    match inst.op {
        op::LABEL if is_repeated => Some(TreeFault::BadBlock(place)),
        op::LABEL if is_wanted => None,
        op::LABEL => Some(TreeFault::BadMerge(place)),
        op::FUNCTION_END => Some(at_end),
        _ => Some(TreeFault::BadBlock(place)),
    }
}
