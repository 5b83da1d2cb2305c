//! A key read back.
ghost use Rattle.std.specs.Prelude.{◌≡◌, ◌+◌, ◌*◌, ◌-◌, ◌/◌, ◌%◌, ◌^◌, ◌<◌, ◌≤◌, ℕ, slice_index};
ghost use Rattle.state_key.specs.Unpacked.{field, flag, digit, binding_of, attribute_of, set_of, layout_of, multisample_of, depth_of, logic_of, attachment_of, entry_of, entries_of, bindings_of, attributes_of, attachments_of, vertex_of, prerast_of, fragment_of, output_of, unpacked_state};

use limits::{ATTACHMENTS, DESCRIPTOR_SETS, ENTRIES, KEY_WORDS, LOCATIONS, VERTEX_BINDINGS};
use state_model::{
    Attachment, Attribute, Depth, Entry, FragmentPart, Layout, Multisample, OutputPart,
    PrerastPart, SpecValues, State, Topology, VertexBinding, VertexPart,
};

/// KeyWords for layouts, view mask, multisample state, depth, logic operation and attachments.
pub const FIXED_WORDS: usize = 8;
/// Where the words of the bindings begin.
pub const BINDINGS_AT: usize = 4;
/// Where those of the attributes begin.
pub const ATTRIBUTES_AT: usize = BINDINGS_AT + VERTEX_BINDINGS;
/// Where those of layouts, view mask, multisample state, depth, logic operation and attachments begin.
pub const FIXED_AT: usize = ATTRIBUTES_AT + LOCATIONS;
/// Where the words of the vertex entries begin.
pub const ENTRIES_AT: usize = FIXED_AT + FIXED_WORDS;
/// Where those of the fragment entries begin.
pub const FRAGMENT_ENTRIES_AT: usize = ENTRIES_AT + ENTRIES;

/// The state that the fields of the key make, lawful or not.
#[tactic(auto, unfolding(crate::specs::Unpacked::unpacked_state))]
pub fn unpacked_state(key: &[u64; KEY_WORDS]) -> State
    ensures { result ≡ unpacked_state key.now }
{
    let discard = flag(key[0], 1);
    State {
        vertex: vertex_of(key),
        prerast: prerast_of(key),
        fragment: (!discard).then_some(fragment_of(key)),
        output: (!discard).then_some(output_of(key)),
    }
}

// So many bits of the word from a bit on.
fn field(word: u64, at: u32, bits: u32) -> u64
    requires at { at < 64 }
    requires bits { bits < 64 }
    ensures value { result ≡ field word at bits }
    ensures bound { result < 2 ^ bits }
{
    (word >> at) % (1 << bits)
}

fn flag(word: u64, at: u32) -> bool
    requires { at < 64 }
    ensures { result ≡ flag word at }
{
    field(word, at, 1) == 1
}

fn digit(bits: u32, word: u64, i: usize) -> u64
    requires at { bits * i < 64 }
    requires i { i < 64 }
    requires bits { bits < 64 }
    ensures value { result ≡ digit bits word i }
    ensures bound { result < 2 ^ bits }
{
    field(word, bits * i as u32, bits)
}

fn binding_of(word: u64) -> Option<VertexBinding>
    ensures { result ≡ binding_of word }
{
    flag(word, 0).then_some(VertexBinding {
        stride: field(word, 32, 32) as u32,
        per_instance: flag(word, 1),
    })
}

fn attribute_of(word: u64) -> Option<Attribute>
    ensures { result ≡ attribute_of word }
{
    flag(word, 0).then_some(Attribute {
        binding: field(word, 8, 2) as u8,
        comps: field(word, 4, 3) as u8,
        signed: flag(word, 1),
        offset: field(word, 32, 32) as u32,
    })
}

fn set_of(defined: u64, masks: u64, set: usize) -> Option<u8>
    requires { set < DESCRIPTOR_SETS }
    ensures { result ≡ set_of defined masks set }
{
    (digit(1, defined, set) == 1).then_some(digit(8, masks, set) as u8)
}

#[tactic(auto, unfolding(crate::specs::Unpacked::layout_of))]
fn layout_of(word: u64) -> Layout
    ensures { result ≡ layout_of word }
{
    let defined = field(word, 16, 16);
    let masks = field(word, 32, 32);
    let mut sets = [None; DESCRIPTOR_SETS];
    for set in 0..DESCRIPTOR_SETS {
        sets[set] = set_of(defined, masks, set);
    }
    Layout {
        independent: flag(word, 0),
        push_words: field(word, 8, 8) as u8,
        sets,
    }
}

fn multisample_of(word: u64) -> Multisample
    ensures { result ≡ multisample_of word }
{
    Multisample {
        samples: field(word, 0, 3) as u8,
        mask: field(word, 4, 4) as u8,
    }
}

fn depth_of(word: u64) -> Option<Depth>
    ensures { result ≡ depth_of word }
{
    flag(word, 0).then_some(Depth {
        compare: field(word, 4, 3) as u8,
        write: flag(word, 1),
    })
}

fn logic_of(word: u64) -> Option<u8>
    ensures { result ≡ logic_of word }
{
    if word == 0 {
        None
    } else {
        Some(field(word - 1, 0, 4) as u8)
    }
}

fn attachment_of(byte: u64) -> Option<Attachment>
    ensures { result ≡ attachment_of byte }
{
    if byte == 0 {
        return None;
    }
    Some(Attachment {
        format: field(byte, 0, 4) as u8,
        write_mask: field(byte, 4, 4) as u8,
    })
}

fn entry_of(count: u64, word: u64, i: usize) -> Option<Entry>
    ensures { result ≡ entry_of count word i }
{
    ((i as u64) < count).then_some(Entry {
        id: field(word, 32, 32) as u32,
        value: field(word, 0, 32) as u32,
    })
}

#[tactic(auto, unfolding(crate::specs::Unpacked::entries_of))]
fn entries_of(key: &[u64; KEY_WORDS], at: usize, count: u64) -> SpecValues
    requires { at + ENTRIES ≤ KEY_WORDS }
    ensures { result ≡ entries_of key.now at count }
{
    let mut entries = [None; ENTRIES];
    for i in 0..ENTRIES {
        entries[i] = entry_of(count, key[at + i], i);
    }
    SpecValues { entries }
}

#[tactic(auto, unfolding(crate::specs::Unpacked::bindings_of))]
fn bindings_of(key: &[u64; KEY_WORDS]) -> [Option<VertexBinding>; VERTEX_BINDINGS]
    ensures { result ≡ bindings_of key.now }
{
    let mut bindings = [None; VERTEX_BINDINGS];
    for i in 0..VERTEX_BINDINGS {
        bindings[i] = binding_of(key[BINDINGS_AT + i]);
    }
    bindings
}

#[tactic(auto, unfolding(crate::specs::Unpacked::attributes_of))]
fn attributes_of(key: &[u64; KEY_WORDS]) -> [Option<Attribute>; LOCATIONS]
    ensures { result ≡ attributes_of key.now }
{
    let mut attributes = [None; LOCATIONS];
    for i in 0..LOCATIONS {
        attributes[i] = attribute_of(key[ATTRIBUTES_AT + i]);
    }
    attributes
}

#[tactic(auto, unfolding(crate::specs::Unpacked::attachments_of))]
fn attachments_of(word: u64) -> [Option<Attachment>; ATTACHMENTS]
    ensures { result ≡ attachments_of word }
{
    let mut attachments = [None; ATTACHMENTS];
    for i in 0..ATTACHMENTS {
        attachments[i] = attachment_of(digit(8, word, i));
    }
    attachments
}

fn vertex_of(key: &[u64; KEY_WORDS]) -> VertexPart
    ensures { result ≡ vertex_of key.now }
{
    let triangles = flag(key[0], 0);
    VertexPart {
        retain: flag(key[0], 8),
        topology: if triangles {
            Topology::Triangles
        } else {
            Topology::Points
        },
        bindings: bindings_of(key),
        attributes: attributes_of(key),
    }
}

fn prerast_of(key: &[u64; KEY_WORDS]) -> PrerastPart
    ensures { result ≡ prerast_of key.now }
{
    PrerastPart {
        retain: flag(key[0], 9),
        module: field(key[1], 0, 32) as u32,
        layout: layout_of(key[FIXED_AT]),
        view_mask: field(key[FIXED_AT + 2], 0, 4) as u8,
        discard: flag(key[0], 1),
        cull: field(key[0], 2, 2) as u8,
        ccw: flag(key[0], 4),
        entries: entries_of(key, ENTRIES_AT, field(key[2], 0, 5)),
    }
}

fn fragment_of(key: &[u64; KEY_WORDS]) -> FragmentPart
    ensures { result ≡ fragment_of key.now }
{
    FragmentPart {
        retain: flag(key[0], 10),
        module: (field(key[1], 32, 32) as u32).saturating_sub(1),
        layout: layout_of(key[FIXED_AT + 1]),
        view_mask: field(key[FIXED_AT + 2], 0, 4) as u8,
        depth: depth_of(key[FIXED_AT + 4]),
        multisample: None,
        entries: entries_of(key, FRAGMENT_ENTRIES_AT, field(key[2], 8, 5)),
    }
}

fn output_of(key: &[u64; KEY_WORDS]) -> OutputPart
    ensures { result ≡ output_of key.now }
{
    OutputPart {
        retain: flag(key[0], 11),
        view_mask: field(key[FIXED_AT + 2], 0, 4) as u8,
        multisample: multisample_of(key[FIXED_AT + 3]),
        logic: logic_of(key[FIXED_AT + 5]),
        attachments: attachments_of(key[FIXED_AT + 6]),
    }
}
