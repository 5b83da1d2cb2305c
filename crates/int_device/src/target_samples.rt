//! The samples of one target: which are there, where they stand, and what is read and written.
ghost use Rattle.std.specs.Prelude.{◌≡◌, ◌<◌, ◌≤◌, ◌+◌, ◌*◌, ◌^◌, length, take, drop, slice_index};
ghost use Rattle.std.specs.Option.{ForSome};
ghost use Rattle.draw_model.specs.Pixel.{stored_pixel};
ghost use Rattle.draw_model.specs.TargetWords.{sample_place, sample_words, with_sample, suits, words_set};
ghost use Rattle.int_device.specs.SampleRules.{IsLimited, IsPlace, told, four, passes_in, with_depth_in, with_write_in};
ghost use Rattle.state_model.specs.Lawful.{format_components};
ghost use Rattle.limits.specs.declared.TheConstants.{MAX_SIDE};

use crate::fragment::Fragment;
use draw_model::framebuffer::{DEPTH_FORMAT, Target};
use fragment_lib::depth_passes;
use limits::COMPONENTS;
use output_lib::store_component;
use sqlite_items::Items;
use state_model::format::FORMAT_R32_UINT;
use state_model::vulkan::{COMPARE_OP_ALWAYS, LOGIC_OP_SET};
use state_model::{Attachment, Depth};

// Whether it has this format and sample count, and the fragment's pixel and layer.
fn suits(target: &Target, format: u8, samples: u8, f: &Fragment<'_>) -> bool
    ensures { result ≡ suits format samples (told f.now) target.now }
{
    target.format == format
        && target.samples == samples
        && f.x < target.width
        && f.y < target.height
        && f.layer < target.layers
}

// The components of a format.
fn size_of(format: u8) -> usize
    requires { FORMAT_R32_UINT ≤ format }
    ensures size { result ≡ format_components format }
    ensures few { result ≤ COMPONENTS }
{
    usize::from((format - FORMAT_R32_UINT) % COMPONENTS as u8) + 1
}

fn pixel_number(width: u32, height: u32, layer: u8, x: u32, y: u32) -> u64
    requires width { width ≤ MAX_SIDE }
    requires height { height ≤ MAX_SIDE }
    requires x { x < MAX_SIDE }
    requires y { y < MAX_SIDE }
    ensures number { result ≡ (layer * height + y) * width + x }
    ensures bound { result < 2 ^ 24 }
{
    let row = u64::from(layer) * u64::from(height) + u64::from(y);
    row * u64::from(width) + u64::from(x)
}

fn place_after(pixel: u64, samples: u8, sample: u8, size: usize) -> usize
    requires pixel { pixel < 2 ^ 24 }
    requires few { size ≤ COMPONENTS }
    ensures place { result ≡ (pixel * samples + sample) * size }
    ensures bound { result < 2 ^ 40 }
{
    let number = pixel * u64::from(samples) + u64::from(sample);
    number as usize * size
}

// Where the words of a fragment's sample begin.
#[tactic(auto, unfolding(draw_model::specs::TargetWords::sample_place))]
fn place_of(target: &Target, f: &Fragment<'_>, sample: u8) -> usize
    requires limited { IsLimited target.now }
    requires within { IsPlace f.now }
    ensures place { result ≡ sample_place target.now f.now.layer f.now.x f.now.y sample }
    ensures bound { result < 2 ^ 40 }
{
    let pixel = pixel_number(target.width, target.height, f.layer, f.x, f.y);
    place_after(pixel, target.samples, sample, size_of(target.format))
}

fn word_at(words: &[u32], place: usize) -> u32
    ensures { result ≡ slice_index words.now place }
{
    words.get(place).copied().unwrap_or(0)
}

// A component of a sample, 0 where its format lacks it.
fn component(words: &[u32], place: usize, size: usize, i: usize) -> u32
    requires bound { place < 2 ^ 40 }
    requires within { i < COMPONENTS }
    ensures { result ≡ slice_index (take size (drop place words.now)) i }
{
    if i < size {
        word_at(words, place + i)
    } else {
        0
    }
}

// The words of a sample, with zeros for the components that its format lacks.
fn read_words(words: &[u32], place: usize, size: usize) -> [u32; COMPONENTS]
    requires { place < 2 ^ 40 }
    ensures { result ≡ four (take size (drop place words.now)) }
{
    [
        component(words, place, size, 0),
        component(words, place, size, 1),
        component(words, place, size, 2),
        component(words, place, size, 3),
    ]
}

// Stores so many of the words.
fn write_words(words: &mut Items<u32>, place: usize, new: &[u32], size: usize)
    requires bound { place < 2 ^ 40 }
    requires few { size ≤ COMPONENTS }
    ensures { words.new ≡ words_set place (take size new.now) words.old }
{
    for i in 0..size.min(new.len()) {
        if place + i < words.len() {
            words.set(place + i, new[i]);
        }
    }
}

#[tactic(auto, unfolding(draw_model::specs::TargetWords::sample_words))]
fn read_sample(target: &Target, f: &Fragment<'_>, sample: u8) -> [u32; COMPONENTS]
    requires limited { IsLimited target.now }
    requires within { IsPlace f.now }
    ensures { result ≡ four (sample_words target.now (told f.now) sample) }
{
    let place = place_of(target, f, sample);
    read_words(target.words.as_slice(), place, size_of(target.format))
}

#[tactic(auto, unfolding(draw_model::specs::TargetWords::with_sample))]
fn store_sample(target: &mut Target, f: &Fragment<'_>, sample: u8, new: &[u32])
    requires limited { IsLimited target.old }
    requires within { IsPlace f.now }
    ensures { target.new ≡ with_sample target.old (told f.now) sample new.now }
{
    let place = place_of(target, f, sample);
    let size = size_of(target.format);
    write_words(&mut target.words, place, new, size);
}

// Stores so many components, each over the word that stands there, by the logic operation and the write mask.
fn write_components(
    words: &mut Items<u32>,
    place: usize,
    size: usize,
    logic: Option<u8>,
    mask: u8,
    new: [u32; COMPONENTS],
)
    requires bound { place < 2 ^ 40 }
    requires few { size ≤ COMPONENTS }
    requires logic { ForSome logic (λ op. op ≤ LOGIC_OP_SET) }
    ensures { words.new ≡ words_set place (take size (stored_pixel logic mask new
        (four (take size (drop place words.old))))) words.old }
{
    for i in 0..size {
        let old = word_at(words.as_slice(), place + i);
        let word = store_component(logic, mask, i, new[i], old);
        if place + i < words.len() {
            words.set(place + i, word);
        }
    }
}

// Stores the words of an output in a fragment's sample, by the logic operation and the write mask.
#[tactic(auto, unfolding(draw_model::specs::TargetWords::sample_words, draw_model::specs::TargetWords::with_sample))]
fn combine_sample(
    target: &mut Target,
    logic: Option<u8>,
    mask: u8,
    f: &Fragment<'_>,
    words: [u32; COMPONENTS],
    sample: u8,
)
    requires limited { IsLimited target.old }
    requires within { IsPlace f.now }
    requires logic { ForSome logic (λ op. op ≤ LOGIC_OP_SET) }
    ensures { target.new ≡ with_sample target.old (told f.now) sample
        (stored_pixel logic mask words (four (sample_words target.old (told f.now) sample))) }
{
    let place = place_of(target, f, sample);
    let size = size_of(target.format);
    write_components(&mut target.words, place, size, logic, mask, words);
}

/// Tests the depth of a fragment's sample and stores it where it passes, if the target is for it; and whether the sample
/// goes on.
pub fn test_depth(
    target: &mut Target,
    depth: Depth,
    samples: u8,
    f: &Fragment<'_>,
    sample: u8,
) -> bool
    requires limited { IsLimited target.old }
    requires within { IsPlace f.now }
    requires compare { depth.compare ≤ COMPARE_OP_ALWAYS }
    ensures passes { result ≡ passes_in depth samples (told f.now) sample target.old }
    ensures stored { target.new ≡ with_depth_in depth samples (told f.now) sample target.old }
{
    if !suits(target, DEPTH_FORMAT, samples, f) {
        return true;
    }
    let old = read_sample(target, f, sample)[0];
    let passes = depth_passes(depth.compare, f.depth, old);
    if passes && depth.write {
        store_sample(target, f, sample, &[f.depth]);
    }
    passes
}

/// Stores the words of an output in a fragment's sample, by the logic operation and the write mask, if the target is for it.
pub fn write_output(
    target: &mut Target,
    attachment: Attachment,
    logic: Option<u8>,
    samples: u8,
    f: &Fragment<'_>,
    words: [u32; COMPONENTS],
    sample: u8,
)
    requires limited { IsLimited target.old }
    requires within { IsPlace f.now }
    requires logic { ForSome logic (λ op. op ≤ LOGIC_OP_SET) }
    ensures { target.new
        ≡ with_write_in attachment logic samples (told f.now) words sample target.old }
{
    if suits(target, attachment.format, samples, f) {
        combine_sample(target, logic, attachment.write_mask, f, words, sample);
    }
}
