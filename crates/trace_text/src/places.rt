//! Arrays whose places are filled from lists, those behind what is there being absent.
ghost use Rattle.std.specs.Prelude.{◌≡◌, ◌≤◌, length};
ghost use Rattle.trace_model.specs.LibraryLines.{filled_up};
ghost use Rattle.trace_model.specs.LinesBefore.{entries_in};
ghost use Rattle.limits.specs.declared.TheConstants as limit;

use limits::{ATTACHMENTS, DESCRIPTOR_SETS, ENTRIES, VERTEX_BINDINGS};
use state_model::{Attachment, Entry, SpecValues, VertexBinding};

/// The masks of all sets.
pub fn sets_of(masks: &[Option<u8>]) -> [Option<u8>; DESCRIPTOR_SETS]
    requires { length masks.now ≤ limit.DESCRIPTOR_SETS }
    ensures { result ≡ filled_up limit.DESCRIPTOR_SETS masks.now }
{
    let mut sets = [None; DESCRIPTOR_SETS];
    for i in 0..DESCRIPTOR_SETS {
        sets[i] = masks.get(i).copied().flatten();
    }
    sets
}

/// The bindings by their numbers.
pub fn bindings_of(list: &[Option<VertexBinding>]) -> [Option<VertexBinding>; VERTEX_BINDINGS]
    requires { length list.now ≤ limit.VERTEX_BINDINGS }
    ensures { result ≡ filled_up limit.VERTEX_BINDINGS list.now }
{
    let mut bindings = [None; VERTEX_BINDINGS];
    for i in 0..VERTEX_BINDINGS {
        bindings[i] = list.get(i).copied().flatten();
    }
    bindings
}

/// The attachments by location.
pub fn attachments_of(list: &[Option<Attachment>]) -> [Option<Attachment>; ATTACHMENTS]
    requires { length list.now ≤ limit.ATTACHMENTS }
    ensures { result ≡ filled_up limit.ATTACHMENTS list.now }
{
    let mut attachments = [None; ATTACHMENTS];
    for i in 0..ATTACHMENTS {
        attachments[i] = list.get(i).copied().flatten();
    }
    attachments
}

/// The entries of one stage.
pub fn entries_of(list: &[Entry]) -> SpecValues
    requires { length list.now ≤ limit.ENTRIES }
    ensures { result ≡ entries_in list.now }
{
    let mut entries = [None; ENTRIES];
    for i in 0..ENTRIES {
        entries[i] = list.get(i).copied();
    }
    SpecValues { entries }
}

/// The numbers of the targets by location.
pub fn numbers_of(list: &[Option<u16>]) -> [Option<u16>; ATTACHMENTS]
    requires { length list.now ≤ limit.ATTACHMENTS }
    ensures { result ≡ filled_up limit.ATTACHMENTS list.now }
{
    let mut numbers = [None; ATTACHMENTS];
    for i in 0..ATTACHMENTS {
        numbers[i] = list.get(i).copied().flatten();
    }
    numbers
}
