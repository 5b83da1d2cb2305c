//! The samples of a fragment, one by one.
ghost use Rattle.std.specs.Prelude.{◌≡◌, ◌<◌};
ghost use Rattle.draw_model.specs.Pixel.{has_bit};
ghost use Rattle.int_device.specs.SampleRules.{AreRules, IsPlace, told, locations_by, sample_by, samples_by};

use crate::canvas::Canvas;
use crate::fragment::Fragment;
use crate::sample_rules::SampleRules;
use limits::{ATTACHMENTS, COMPONENTS, LOCATIONS};

type Slots = [[u32; COMPONENTS]; LOCATIONS];

// The attachments of one sample, by location.
fn write_locations(
    canvas: &mut Canvas,
    rules: &SampleRules,
    f: &Fragment<'_>,
    slots: &Slots,
    sample: u8,
)
    requires within { IsPlace f.now }
    requires rules { AreRules rules.now }
    ensures { canvas.new ≡ locations_by rules.now (told f.now) slots.now sample canvas.old }
{
    for location in 0..ATTACHMENTS {
        canvas.write(
            rules.attachments[location],
            rules.logic,
            rules.samples,
            f,
            slots[location],
            sample,
        );
    }
}

#[tactic(auto, unfolding(crate::specs::SampleRules::sample_by))]
fn write_sample(
    canvas: &mut Canvas,
    rules: &SampleRules,
    f: &Fragment<'_>,
    slots: &Slots,
    sample: u8,
)
    requires within { IsPlace f.now }
    requires rules { AreRules rules.now }
    ensures { canvas.new ≡ sample_by rules.now (told f.now) slots.now canvas.old sample }
{
    if canvas.test_depth(rules.depth, rules.samples, f, sample) {
        write_locations(canvas, rules, f, slots, sample);
    }
}

/// Writes the samples of the mask, in order, with the words that the fragment's invocation leaves by location.
pub fn write_samples(canvas: &mut Canvas, rules: &SampleRules, f: &Fragment<'_>, slots: &Slots)
    requires within { IsPlace f.now }
    requires rules { AreRules rules.now }
    ensures { canvas.new ≡ samples_by rules.now (told f.now) slots.now canvas.old }
{
    for sample in 0..rules.samples {
        if is_in_mask(rules.mask, sample) {
            write_sample(canvas, rules, f, slots, sample);
        }
    }
}

/// Whether the mask has the bit.
pub fn is_in_mask(mask: u8, sample: u8) -> bool
    requires { sample < 8 }
    ensures { result ≡ has_bit mask sample }
{
    (mask >> sample) % 2 == 1
}
