//! The key of a state.
ghost use Rattle.std.specs.Prelude.{◌≡◌, ◌+◌, ◌*◌, ◌^◌, ◌<◌, ◌≤◌, ℕ, ◌++◌, map, length, ◌↔◌, IsTrue, Some, IfSome, IfNone, is_some, unwrap_or, drop};
ghost use Rattle.std.specs.Option.{option_map_or, option_and_then};
ghost use Rattle.state_model.specs.Lawful.{AllPresent, IsLawful, IsLayout, IsAttachment, IsOutputPart, IsSpecValues, IsMultisample};
ghost use Rattle.state_model.specs.Canonical.{IsTidy};
ghost use Rattle.state_model.specs.declared.parts.State.{State};
ghost use Rattle.state_key.specs.Keys.{HasKey, TellsApart};
ghost use Rattle.state_model.specs.Key.{key, bit, packed_word, binding_word, attribute_word, layout_word, multisample_word, depth_word, logic_word, attachment_byte, attachments_word, entry_word, entry_count, fragment_entries, flags_word, modules_word, counts_word, fixed_words, topology_bit};

use crate::lawful::Lawful;
use crate::tidy::is_tidy;
use crate::unpack::unpacked_state;
use crate::words::KeyWords;
use limits::{
    ATTACHMENTS, DESCRIPTOR_SETS, ENTRIES, KEY_WORDS, LOCATIONS, MODULES, VERTEX_BINDINGS,
};
use state_model::vulkan::CULL_MODE_FRONT_AND_BACK;
use state_model::{
    Attachment, Attribute, Depth, Entry, FragmentPart, Layout, Multisample, OutputPart, State,
    Topology, VertexBinding,
};

/// The key of a lawful state. Two lawful and tidy states have equal keys exactly where they are equal.
pub fn key_of(state: &State) -> [u64; KEY_WORDS]
    requires { IsLawful state.now }
    ensures value { result ≡ key state.now }
    ensures exact { IsTidy state.now → TellsApart result state.now }
{
    key_words(state)
}

/// The lawful and tidy state that has the key; `None` where no such state has it.
pub fn state_of(key: &[u64; KEY_WORDS]) -> Option<State>
    ensures found { (s : State) → HasKey key.now s → result ≡ Some s }
    ensures sound { IfSome result (HasKey key.now) }
    ensures none { IfNone result ((s : State) → ¬ HasKey key.now s) }
{
    let state = unpacked_state(key);
    if has_key(&state, key) {
        Some(state)
    } else {
        None
    }
}

fn has_key(state: &State, key: &[u64; KEY_WORDS]) -> bool
    ensures { IsTrue result ↔ HasKey key.now state.now }
{
    state.lawful() && is_tidy(state) && key_words(state) == *key
}

#[tactic(auto, unfolding(state_model::specs::Key::key))]
fn key_words(state: &State) -> [u64; KEY_WORDS]
    requires { IsLawful state.now }
    ensures { result ≡ key state.now }
{
    let mut words = KeyWords::new();
    push_words(
        &mut words,
        &[
            flags_word(state),
            modules_word(state),
            counts_word(state),
            0,
        ],
    );
    push_bindings(&mut words, &state.vertex.bindings);
    push_attributes(&mut words, &state.vertex.attributes);
    push_words(&mut words, &fixed_words(state));
    push_entries(&mut words, &state.prerast.entries.entries);
    push_entries(&mut words, &fragment_entries(&state.fragment));
    words.finish()
}

fn push_words(words: &mut KeyWords, more: &[u64])
    requires { length words.old + length more.now ≤ KEY_WORDS }
    ensures { words.new ≡ words.old ++ more.now }
{
    for word in more {
        words.push(*word);
    }
}

fn push_bindings(words: &mut KeyWords, bindings: &[Option<VertexBinding>])
    requires { length words.old + length bindings.now ≤ KEY_WORDS }
    ensures { words.new ≡ words.old ++ map binding_word bindings.now }
{
    for binding in bindings {
        words.push(binding_word(*binding));
    }
}

fn push_attributes(words: &mut KeyWords, attributes: &[Option<Attribute>])
    requires { length words.old + length attributes.now ≤ KEY_WORDS }
    ensures { words.new ≡ words.old ++ map attribute_word attributes.now }
{
    for attribute in attributes {
        words.push(attribute_word(*attribute));
    }
}

fn push_entries(words: &mut KeyWords, entries: &[Option<Entry>])
    requires { length words.old + length entries.now ≤ KEY_WORDS }
    ensures { words.new ≡ words.old ++ map entry_word entries.now }
{
    for entry in entries {
        words.push(entry_word(*entry));
    }
}

fn binding_word(binding: Option<VertexBinding>) -> u64
    ensures { result ≡ binding_word binding }
{
    match binding {
        Some(b) => 1 + (bit(b.per_instance) << 1) + (u64::from(b.stride) << 32),
        None => 0,
    }
}

fn attribute_word(attribute: Option<Attribute>) -> u64
    ensures { result ≡ attribute_word attribute }
{
    match attribute {
        Some(a) => {
            1 + (bit(a.signed) << 1)
                + (u64::from(a.comps) << 4)
                + (u64::from(a.binding) << 8)
                + (u64::from(a.offset) << 32)
        }
        None => 0,
    }
}

fn entry_word(entry: Option<Entry>) -> u64
    ensures { result ≡ entry_word entry }
{
    match entry {
        Some(e) => u64::from(e.value) + (u64::from(e.id) << 32),
        None => 0,
    }
}

fn bit(flag: bool) -> u64
    ensures value { result ≡ bit flag }
    ensures bound { result ≤ 1 }
{
    u64::from(flag)
}

fn depth_word(depth: Option<Depth>) -> u64
    ensures { result ≡ depth_word depth }
{
    match depth {
        Some(d) => 1 + (bit(d.write) << 1) + (u64::from(d.compare) << 4),
        None => 0,
    }
}

fn multisample_word(m: Multisample) -> u64
    ensures { result ≡ multisample_word m }
{
    u64::from(m.samples) + (u64::from(m.mask) << 4)
}

fn logic_word(logic: Option<u8>) -> u64
    ensures { result ≡ logic_word logic }
{
    match logic {
        Some(op) => 1 + u64::from(op),
        None => 0,
    }
}

fn flags_word(s: &State) -> u64
    requires { s.now.prerast.cull ≤ CULL_MODE_FRONT_AND_BACK }
    ensures { result ≡ flags_word s.now }
{
    let triangles = bit(s.vertex.topology == Topology::Triangles);
    let fragment = bit(s.fragment.is_some_and(|f| f.retain));
    let output = bit(s.output.is_some_and(|o| o.retain));
    triangles
        + (bit(s.prerast.discard) << 1)
        + (u64::from(s.prerast.cull) << 2)
        + (bit(s.prerast.ccw) << 4)
        + (bit(s.vertex.retain) << 8)
        + (bit(s.prerast.retain) << 9)
        + (fragment << 10)
        + (output << 11)
}

fn modules_word(s: &State) -> u64
    requires { IfSome s.now.fragment (λ f. f.module < MODULES) }
    ensures { result ≡ modules_word s.now }
{
    match &s.fragment {
        Some(f) => u64::from(s.prerast.module) + (u64::from(1 + f.module) << 32),
        None => u64::from(s.prerast.module),
    }
}

fn counts_word(s: &State) -> u64
    ensures { result ≡ counts_word s.now }
{
    entry_count(&s.prerast.entries.entries) + (entry_count(&fragment_entries(&s.fragment)) << 8)
}

fn entry_count(entries: &[Option<Entry>; ENTRIES]) -> u64
    ensures value { result ≡ entry_count entries.now }
    ensures bound { result ≤ ENTRIES }
{
    entries.iter().filter(|e| e.is_some()).count() as u64
}

fn fragment_entries(fragment: &Option<FragmentPart>) -> [Option<Entry>; ENTRIES]
    ensures { result ≡ fragment_entries fragment.now }
{
    match fragment {
        Some(f) => f.entries.entries,
        None => [None; ENTRIES],
    }
}

fn layout_word(layout: &Layout) -> u64
    ensures { result ≡ layout_word layout.now }
{
    bit(layout.independent)
        + (u64::from(layout.push_words) << 8)
        + (sets_defined(&layout.sets) << 16)
        + (set_masks(&layout.sets) << 32)
}

fn sets_defined(sets: &[Option<u8>; DESCRIPTOR_SETS]) -> u64
    ensures value { result ≡ packed_word 1 (map (λ set. bit (is_some set)) sets.now) }
    ensures bound { result < 2 ^ (1 * DESCRIPTOR_SETS) }
{
    let mut word = 0;
    let mut set = DESCRIPTOR_SETS;
    while set > 0 {
        set -= 1;
        word = with_lowest(word, 1, bit(sets[set].is_some()));
    }
    word
}

fn set_masks(sets: &[Option<u8>; DESCRIPTOR_SETS]) -> u64
    ensures value { result ≡ packed_word 8 (map (λ set. unwrap_or set 0) sets.now) }
    ensures bound { result < 2 ^ (8 * DESCRIPTOR_SETS) }
{
    let mut word = 0;
    let mut set = DESCRIPTOR_SETS;
    while set > 0 {
        set -= 1;
        word = with_lowest(word, 8, u64::from(sets[set].unwrap_or(0)));
    }
    word
}

fn attachments_word(attachments: &[Option<Attachment>; ATTACHMENTS]) -> u64
    requires { AllPresent IsAttachment attachments.now }
    ensures { result ≡ packed_word 8 (map attachment_byte attachments.now) }
{
    let mut word = 0;
    let mut i = ATTACHMENTS;
    while i > 0 {
        i -= 1;
        word = with_lowest(word, 8, attachment_byte(attachments[i]));
    }
    word
}

fn attachment_byte(attachment: Option<Attachment>) -> u64
    requires { IfSome attachment IsAttachment }
    ensures value { result ≡ attachment_byte attachment }
    ensures bound { result < 2 ^ 8 }
{
    match attachment {
        Some(a) => u64::from(a.format) + (u64::from(a.write_mask) << 4),
        None => 0,
    }
}

// A value of so many bits below the word.
fn with_lowest(word: u64, bits: u32, value: u64) -> u64
    requires bits { bits < 64 }
    requires fits { value + 2 ^ bits * word < 2 ^ 64 }
    ensures { result ≡ value + 2 ^ bits * word }
{
    value + (word << bits)
}

fn fixed_words(s: &State) -> [u64; 8]
    requires { IfSome s.now.output IsOutputPart }
    ensures { result ≡ fixed_words s.now }
{
    let fragment_layout = s.fragment.as_ref().map_or(0, |f| layout_word(&f.layout));
    let depth = s.fragment.and_then(|f| f.depth);
    let logic = s.output.and_then(|o| o.logic);
    [
        layout_word(&s.prerast.layout),
        fragment_layout,
        u64::from(s.prerast.view_mask),
        output_multisample(&s.output),
        depth_word(depth),
        logic_word(logic),
        output_attachments(&s.output),
        0,
    ]
}

fn output_multisample(output: &Option<OutputPart>) -> u64
    ensures { result ≡ option_map_or (λ o. multisample_word o.multisample) output.now 0 }
{
    match output {
        Some(o) => multisample_word(o.multisample),
        None => 0,
    }
}

fn output_attachments(output: &Option<OutputPart>) -> u64
    requires { IfSome output.now IsOutputPart }
    ensures { result ≡ option_map_or attachments_word output.now 0 }
{
    match output {
        Some(o) => attachments_word(&o.attachments),
        None => 0,
    }
}
