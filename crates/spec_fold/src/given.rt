//! The scalars that instructions give their results, as entries specialize them (SPIR-V specification, section 3.49.7
//! "Constant-Creation Instructions").
ghost use Rattle.std.specs.Prelude.{◌≡◌, slice_index};
ghost use Rattle.id_table.specs.Tables.{at};
ghost use Rattle.spec_fold.specs.Settles as settles;
ghost use Rattle.spec_fold.specs.Settles.{number_given, operation_given, truth_given};

use crate::entries::specialized;
use crate::scalars::{meaning_of, null_scalar};
use id_table::IdTable;
use scalar_model::Scalar;
use spirv_model::{Inst, op};
use spv_check::Module;
use spv_ops::fold_one;
use state_model::SpecValues;

/// The scalar that an instruction gives its result, if it gives one, where ids are known to be these scalars.
#[tactic(auto, unfolding(crate::specs::Settles::scalar_given))]
pub fn scalar_given(
    of: &Module,
    values: &SpecValues,
    known: &IdTable<Scalar>,
    inst: &Inst,
) -> Option<Scalar>
    ensures { result ≡ settles.scalar_given of.now.insts values.now (at known.now)
        inst.now.op inst.now.words }
{
    let [ty, id, words @ ..] = inst.words.as_slice() else {
        return None;
    };
    match inst.op {
        op::CONSTANT_TRUE => Some(Scalar::Bool(true)),
        op::CONSTANT_FALSE => Some(Scalar::Bool(false)),
        op::CONSTANT => Some(Scalar::Word(first_word(words))),
        op::CONSTANT_NULL | op::UNDEF => null_scalar(meaning_of(of, *ty)),
        op::SPEC_CONSTANT_TRUE => Some(Scalar::Bool(truth_given(of, values, *id, 1))),
        op::SPEC_CONSTANT_FALSE => Some(Scalar::Bool(truth_given(of, values, *id, 0))),
        op::SPEC_CONSTANT => Some(Scalar::Word(number_given(of, values, *id, first_word(words)))),
        op::SPEC_CONSTANT_OP => operation_given(known, words),
        _ => None,
    }
}

/// The first word, or 0 where there is none.
fn first_word(words: &[u32]) -> u32
    ensures { result ≡ slice_index words.now 0 }
{
    words.first().copied().unwrap_or(0)
}

/// A truth value that entries may set.
fn truth_given(of: &Module, values: &SpecValues, id: u32, default: u32) -> bool
    ensures { result ≡ truth_given of.now.insts values.now id default }
{
    specialized(of, values, id).unwrap_or(default) != 0
}

/// A number that entries may set.
fn number_given(of: &Module, values: &SpecValues, id: u32, default: u32) -> u32
    ensures { result ≡ number_given of.now.insts values.now id default }
{
    specialized(of, values, id).unwrap_or(default)
}

/// The result of an OpSpecConstantOp with these words behind its id.
fn operation_given(known: &IdTable<Scalar>, words: &[u32]) -> Option<Scalar>
    ensures { result ≡ operation_given (at known.now) words.now }
{
    let Ok(op) = u16::try_from(first_word(words)) else {
        return None;
    };
    match *words {
        [_, first] => fold_one(op, &[scalar_at(known, first)]),
        [_, first, second] => fold_one(op, &[scalar_at(known, first), scalar_at(known, second)]),
        [_, first, second, third] => {
            let first = scalar_at(known, first);
            let second = scalar_at(known, second);
            fold_one(op, &[first, second, scalar_at(known, third)])
        }
        _ => None,
    }
}

fn scalar_at(known: &IdTable<Scalar>, id: u32) -> Option<Scalar>
    ensures { result ≡ at known.now id }
{
    known.get(id).copied()
}
