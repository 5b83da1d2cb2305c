//! Results of scalar operations that are known.
ghost use Rattle.std.specs.Prelude.{◌≡◌, ◌<◌, length};
ghost use Rattle.std.specs.Option.{option_and_then};
ghost use Rattle.spirv_model.specs.Operands.{words_from};
ghost use Rattle.scalar_model.specs.Scalars.{scalar_result};
ghost use Rattle.valid_model.specs.Definitions as definitions;
ghost use Rattle.change_model.specs.Folding.{all_constants};
ghost use Rattle.change_model.specs.Passes as passes;
ghost use Rattle.change_model.specs.Passes.{known_before};
ghost use Rattle.spec_fold.specs.Walks.{plan_in};

use crate::walk::{Walk, known};
use change_model::Fate;
use scalar_model::Scalar;
use spv_check::Module;
use spv_ops::fold_one;
use spv_rewrite::inst_at;

/// What becomes of a scalar operation to which control comes.
pub fn operation_fate(of: &Module, walk: &Walk, place: usize) -> Fate
    requires { place < length of.now.insts }
    ensures { result ≡ passes.operation_fate of.now.insts (plan_in walk.now) place }
{
    match result_of(of, walk, place) {
        Some(scalar) => Fate::Folds(scalar),
        None => Fate::Stays,
    }
}

/// The result of a scalar operation, if all its operands are known.
fn result_of(of: &Module, walk: &Walk, place: usize) -> Option<Scalar>
    requires { place < length of.now.insts }
    ensures { result ≡ option_and_then (scalar_result (definitions.inst_at of.now.insts place).op)
        (all_constants (known_before (plan_in walk.now) of.now.insts place)
        (words_from 2 (definitions.inst_at of.now.insts place))) }
{
    let inst = inst_at(of.insts(), place);
    let op = inst.op;
    let words = inst.words_from(2);
    match *words {
        [first] => fold_one(op, &[known(of, walk, place, first)]),
        [first, second] => {
            let first = known(of, walk, place, first);
            fold_one(op, &[first, known(of, walk, place, second)])
        }
        [first, second, third] => {
            let first = known(of, walk, place, first);
            let second = known(of, walk, place, second);
            fold_one(op, &[first, second, known(of, walk, place, third)])
        }
        _ => None,
    }
}
