//! The first fault of a list whose function is structured and whose ids are sound.
ghost use Rattle.std.specs.Prelude.{◌≡◌, ◌<◌, ◌^◌, List, length};
ghost use Rattle.valid_model.specs.ModuleFacts.{facts_of, is_vertex};
ghost use Rattle.check_model.specs.Intervals.{Interval};
ghost use Rattle.check_model.specs.Interfaces as interfaces;
ghost use Rattle.check_model.specs.Validity as spec;
ghost use Rattle.spv_types.specs.Answers.{AreIdsOf};
ghost use Rattle.spv_check.specs.Uses.{AreHidden, first_fault_of};

use crate::entry_points::bad_entry_count;
use crate::interfaces::{interface, shared_location, smooth_input};
use crate::uses::use_fault;
use check_model::CheckFault;
use spirv_model::{Words, storage_class};
use spv_types::Ids;
use state_model::Iface;

/// The lowest location of an input of a fragment module that isn't Flat.
#[tactic(auto, unfolding(check_model::specs::Interfaces::not_flat), using(crate::proofs::InterfacesTold::smooth_told))]
fn not_flat(words: &Words, ids: &Ids, vertex: bool) -> Option<u32>
    requires ids { AreIdsOf words.now ids.now }
    requires vertex { vertex ≡ is_vertex (facts_of words.now.insts) }
    ensures { result ≡ interfaces.not_flat words.now.insts }
{
    if vertex {
        return None;
    }
    smooth_input(words.insts.as_slice(), ids)
}

/// The lowest location that two inputs or two outputs have.
#[tactic(auto, using(crate::proofs::InterfacesTold::twice_told))]
fn location_twice(words: &Words, ids: &Ids) -> Option<u32>
    requires { AreIdsOf words.now ids.now }
    ensures { result ≡ interfaces.location_twice words.now.insts }
{
    shared_location(words.insts.as_slice(), ids)
}

/// The inputs of a module, by location.
#[tactic(auto, unfolding(check_model::specs::Interfaces::inputs_of), using(crate::proofs::InterfacesTold::interface_is))]
pub fn inputs_of(words: &Words, ids: &Ids) -> Iface
    requires { AreIdsOf words.now ids.now }
    ensures { result ≡ interfaces.inputs_of words.now.insts }
{
    interface(words.insts.as_slice(), ids, storage_class::INPUT)
}

/// The outputs of a module, by location.
#[tactic(auto, unfolding(check_model::specs::Interfaces::outputs_of), using(crate::proofs::InterfacesTold::interface_is))]
pub fn outputs_of(words: &Words, ids: &Ids) -> Iface
    requires { AreIdsOf words.now ids.now }
    ensures { result ≡ interfaces.outputs_of words.now.insts }
{
    interface(words.insts.as_slice(), ids, storage_class::OUTPUT)
}

fn first_fault_of(
    count: Option<u32>,
    used: Option<CheckFault>,
    smooth: Option<u32>,
    twice: Option<u32>,
) -> Option<CheckFault>
    ensures { result ≡ first_fault_of count used smooth twice }
{
    if let Some(count) = count {
        return Some(CheckFault::EntryCount(count));
    }
    if let Some(fault) = used {
        return Some(fault);
    }
    if let Some(location) = smooth {
        return Some(CheckFault::NotFlat(location));
    }
    match twice {
        Some(location) => Some(CheckFault::LocationTwice(location)),
        None => None,
    }
}

/// The first fault of entry points, uses and interfaces, where of each place the first id that isn't visible is known.
pub fn list_fault(
    words: &Words,
    ids: &Ids,
    vertex: bool,
    hidden: &[Option<u32>],
) -> Option<CheckFault>
    requires few { length words.now.insts < 2 ^ 32 }
    requires ids { AreIdsOf words.now ids.now }
    requires vertex { vertex ≡ is_vertex (facts_of words.now.insts) }
    requires for_each { length hidden.now ≡ length words.now.insts }
    ensures { (intervals : List Interval) → AreHidden intervals words.now.insts hidden.now
        → result ≡ spec.list_fault intervals words.now.insts }
{
    let count = bad_entry_count(words.insts.as_slice());
    let used = use_fault(words, ids, vertex, hidden);
    let smooth = not_flat(words, ids, vertex);
    let twice = location_twice(words, ids);
    first_fault_of(count, used, smooth, twice)
}
