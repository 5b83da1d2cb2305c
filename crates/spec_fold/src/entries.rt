//! What the entries of a key give specialization constants (SPIR-V specification, section 2.12 "Specialization").
ghost use Rattle.std.specs.Prelude.{◌≡◌};
ghost use Rattle.stage_model.specs.Program.{program_of};
ghost use Rattle.stage_model.specs.Start as start;
ghost use Rattle.spec_fold.specs.Settles.{entry_value};

use limits::ENTRIES;
use spv_check::Module;
use state_model::{Entry, SpecValues};

/// The word that entries give an id, by its SpecId.
#[tactic(auto, unfolding(stage_model::specs::Program::program_of))]
pub fn specialized(of: &Module, values: &SpecValues, id: u32) -> Option<u32>
    ensures { result ≡ start.specialized (program_of of.now.insts) values.now id }
{
    match of.ids().spec_id(id) {
        Some(number) => entry_word(&values.entries, number),
        None => None,
    }
}

/// The word of the first entry with this id.
fn entry_word(entries: &[Option<Entry>; ENTRIES], id: u32) -> Option<u32>
    ensures { result ≡ start.entry_word entries.now id }
{
    for entry in entries {
        if let Some(word) = entry_value(entry, id) {
            return Some(word);
        }
    }
    None
}

fn entry_value(entry: &Option<Entry>, id: u32) -> Option<u32>
    ensures { result ≡ entry_value entry.now id }
{
    match entry {
        Some(entry) if entry.id == id => Some(entry.value),
        _ => None,
    }
}
