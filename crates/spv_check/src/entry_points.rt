//! The entry point of a module (SPIR-V specification, section 2.16.2 "Validation Rules for Shader Capabilities").
ghost use Rattle.std.specs.Prelude.{◌≡◌, ◌<◌, ◌≤◌, ◌^◌, length};
ghost use Rattle.std.specs.List.{find};
ghost use Rattle.std.specs.Option.{option_map};
ghost use Rattle.spirv_model.specs.Operands.{word_at};
ghost use Rattle.check_model.specs.EntryPoints as spec;
ghost use Rattle.valid_model.specs.ModuleFacts as facts;
ghost use Rattle.spv_check.specs.FactsTold.{is_shader_entry_in};

use spirv_model::{Inst, execution_model, op};

/// The id of the function.
fn function_id(insts: &[Inst]) -> Option<u32>
    ensures { result ≡ spec.function_id insts.now }
{
    let function = insts.iter().find(|inst| inst.op == op::FUNCTION)?;
    Some(function.word(1))
}

/// Whether an entry point with these words is one of a vertex or a fragment shader, into this function.
fn is_shader_entry(function: Option<u32>, model: Option<u32>, target: Option<u32>) -> bool
    ensures { result ≡ is_shader_entry_in function model target }
{
    let (Some(model), Some(target)) = (model, target) else {
        return false;
    };
    (model == execution_model::VERTEX || model == execution_model::FRAGMENT)
        && function == Some(target)
}

/// The number of entry points.
fn entry_count(insts: &[Inst]) -> usize
    ensures exact { result ≡ length (spec.entry_points insts.now) }
    ensures within { result ≤ length insts.now }
{
    insts
        .iter()
        .filter(|inst| inst.op == op::ENTRY_POINT)
        .count()
}

/// The execution model of the first entry point.
#[tactic(auto, unfolding(valid_model::specs::ModuleFacts::model_of))]
fn model_of(insts: &[Inst]) -> Option<u32>
    ensures { result ≡ facts.model_of insts.now }
{
    let entry = insts.iter().find(|inst| inst.op == op::ENTRY_POINT)?;
    Some(entry.word(0))
}

/// The function of the first entry point.
fn target_of(insts: &[Inst]) -> Option<u32>
    ensures { result ≡ option_map (word_at 1) (find facts.is_entry insts.now) }
{
    let entry = insts.iter().find(|inst| inst.op == op::ENTRY_POINT)?;
    Some(entry.word(1))
}

/// The number of entry points, where they aren't one of a vertex or a fragment shader into the function.
pub fn bad_entry_count(insts: &[Inst]) -> Option<u32>
    requires { length insts.now < 2 ^ 32 }
    ensures { result ≡ spec.bad_entry_count insts.now }
{
    let count = entry_count(insts);
    if count != 1 {
        return Some(count as u32);
    }
    if is_shader_entry(function_id(insts), model_of(insts), target_of(insts)) {
        return None;
    }
    Some(1)
}

/// Whether the first entry point is that of a vertex shader.
#[tactic(auto, unfolding(valid_model::specs::ModuleFacts::facts_of))]
pub fn is_vertex(insts: &[Inst]) -> bool
    ensures { result ≡ facts.is_vertex (facts.facts_of insts.now) }
{
    model_of(insts) == Some(execution_model::VERTEX)
}
