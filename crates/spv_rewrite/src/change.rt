//! What becomes of the instructions of a list, by its places and ids.
ghost use Rattle.std.specs.Prelude.{◌≡◌, ◌<◌, length};
ghost use Rattle.id_table.specs.Tables.{at};
ghost use Rattle.valid_model.specs.Definitions as definitions;
ghost use Rattle.change_model.specs.Plans.{fate_in, name_in};
ghost use Rattle.spv_rewrite.specs.PhiPairs.{is_left, still_leads};

use change_model::Fate;
use id_table::IdTable;
use spirv_model::Inst;

/// A module's instructions, what becomes of them, which ids stand for others, and where blocks end.
#[derive(Drop)]
pub struct Change<'a> {
    pub insts: &'a [Inst],
    /// What becomes of the instruction at each place: it stays past the end.
    pub fates: &'a [Fate],
    /// The id that stands for each id: itself past the end.
    pub names: &'a [u32],
    /// The places of the terminators, by the labels of their blocks.
    pub ends: IdTable<u32>,
}

impl<'a> Change<'a> {
    /// The instruction at a place.
    pub fn inst(&self, place: usize) -> &Inst
        requires { place < length self.now.insts.now }
        ensures { result.now ≡ definitions.inst_at self.now.insts.now place }
    {
        inst_at(self.insts, place)
    }

    /// What becomes of the instruction at a place.
    pub fn fate(&self, place: usize) -> Fate
        ensures { result ≡ fate_in self.now.fates.now place }
    {
        fate_at(self.fates, place)
    }

    /// Whether the block with a label, which branched to another one, still does.
    pub fn is_left(&self, block: u32, label: u32) -> bool
        ensures { result ≡ is_left self.now.fates.now label (at self.now.ends block) }
    {
        match self.ends.get(block) {
            Some(end) => still_leads(label, self.fate(*end as usize)),
            None => false,
        }
    }
}

/// The instruction at a place.
pub fn inst_at(insts: &[Inst], place: usize) -> &Inst
    requires { place < length insts.now }
    ensures { result.now ≡ definitions.inst_at insts.now place }
{
    &insts[place]
}

/// What becomes of the instruction at a place: it stays past the end.
pub fn fate_at(fates: &[Fate], place: usize) -> Fate
    ensures { result ≡ fate_in fates.now place }
{
    if place < fates.len() {
        fates[place]
    } else {
        Fate::Stays
    }
}

/// The id that stands for an id: itself past the end.
pub fn name_of(names: &[u32], id: u32) -> u32
    ensures { result ≡ name_in names.now id }
{
    names.get(id as usize).copied().unwrap_or(id)
}

/// Whether a terminator that leads to a label still does, where it has this fate.
pub fn still_leads(label: u32, fate: Fate) -> bool
    ensures { result ≡ still_leads label fate }
{
    match fate {
        Fate::Dead => false,
        Fate::Goes(target) | Fate::Picks(target) => target == label,
        _ => true,
    }
}
