ghost use Rattle.std.specs.Prelude.{◌≡◌, ◌<◌, ◌^◌, length};
ghost use Rattle.spirv_model.specs.declared.decoration.TheConstants.{SPEC_ID, LOCATION, BUILT_IN, ARRAY_STRIDE};
ghost use Rattle.spv_types.specs.Answers.{AnswersIds, decoration_at, is_flat_at, meaning_at, offset_at, place_at, size_at, slot_at};

use crate::decoration_words::{Decorations, decorations_of};
use crate::definitions::{Places, definitions};
use crate::first_fault::first_fault;
use crate::knowledge::{Table, size};
use crate::pass::go_over;
use spirv_model::{Words, decoration};
use std::alloc::Global;
use valid_model::{IdFacts, Meaning, TypeFault};

/// What the ids of a module mean, and what decorations say of them.
#[derive(Debug, Drop)]
pub struct Ids {
    table: Table,
    /// What an id means that isn't in the table.
    absent: Meaning,
    places: Places,
    decorations: Decorations,
}

impl Ids {
    /// What an id means: `Absent` where no instruction has it as its result.
    pub fn at(&self, id: u32) -> &Meaning
        ensures { result.now ≡ meaning_at self.now id }
    {
        match self.table.get(id) {
            Some(IdFacts { meaning, .. }) => meaning,
            None => &self.absent,
        }
    }

    /// The place of the id's definition: of the first instruction of the list that has it as its result.
    pub fn place(&self, id: u32) -> Option<u32>
        ensures { result ≡ place_at self.now id }
    {
        self.places.get(id).copied()
    }

    /// The words of a type's values, 0 for types without values that are stored as data and for all other ids.
    pub fn size(&self, id: u32) -> u32
        ensures { result ≡ size_at self.now id }
    {
        size(&self.table, id)
    }

    /// The number that a specialization constant is set by.
    pub fn spec_id(&self, id: u32) -> Option<u32>
        ensures { result ≡ decoration_at self.now id SPEC_ID }
    {
        self.decoration(id, decoration::SPEC_ID)
    }

    /// The location of an input or an output.
    pub fn location(&self, id: u32) -> Option<u32>
        ensures { result ≡ decoration_at self.now id LOCATION }
    {
        self.decoration(id, decoration::LOCATION)
    }

    /// The built-in that a variable is (SPIR-V specification, section 3.21 "BuiltIn").
    pub fn built_in(&self, id: u32) -> Option<u32>
        ensures { result ≡ decoration_at self.now id BUILT_IN }
    {
        self.decoration(id, decoration::BUILT_IN)
    }

    /// The descriptor set and the binding of an id that has both.
    pub fn slot(&self, id: u32) -> Option<(u32, u32)>
        ensures { result ≡ slot_at self.now id }
    {
        let set = self.decoration(id, decoration::DESCRIPTOR_SET)?;
        let binding = self.decoration(id, decoration::BINDING)?;
        Some((set, binding))
    }

    /// The offset of a structure's member, in bytes. Members are counted from 0.
    pub fn offset(&self, id: u32, member: usize) -> Option<u32>
        ensures { result ≡ offset_at self.now id member }
    {
        self.decorations.offsets.get(&(id, member)).copied()
    }

    /// The bytes from an element of an array to the next.
    pub fn stride(&self, id: u32) -> Option<u32>
        ensures { result ≡ decoration_at self.now id ARRAY_STRIDE }
    {
        self.decoration(id, decoration::ARRAY_STRIDE)
    }

    /// Whether an input or an output isn't interpolated: it has the decoration Flat.
    pub fn is_flat(&self, id: u32) -> bool
        ensures { result ≡ is_flat_at self.now id }
    {
        self.decoration(id, decoration::FLAT).is_some()
    }

    /// The word of a decoration of the id.
    fn decoration(&self, id: u32, decoration: u32) -> Option<u32>
        ensures { result ≡ decoration_at self.now id decoration }
    {
        self.decorations
            .words
            .get(&(id, decoration as usize))
            .copied()
    }
}

/// What the ids of a module mean and what decorations say of them, or the first fault of its ids, types, constants and
/// decorations (SPIR-V specification, sections 2.16 "Validation Rules", 3.20 "Decoration", 3.21 "BuiltIn", 3.49.6
/// "Type-Declaration Instructions" and 3.49.7 "Constant-Creation Instructions"): at the lowest place, and there in the
/// order of `TypeFault`. Places are 32-bit numbers, so there are fewer than 2^32 instructions, as in each module that is
/// read.
pub fn ids_of(alloc: Global, words: &Words) -> Result<Ids, TypeFault>
    requires { length words.now.insts < 2 ^ 32 }
    ensures { AnswersIds words.now result }
{
    let insts = words.insts.as_slice();
    let places = definitions(alloc, words.bound, insts)?;
    let pass = go_over(alloc, words, &places)?;
    let decorations = decorations_of(alloc, insts)?;
    match first_fault(alloc, words, &places, &pass, &decorations)? {
        Some(fault) => Err(fault),
        None => Ok(Ids {
            table: pass.table,
            absent: Meaning::Absent,
            places,
            decorations,
        }),
    }
}
