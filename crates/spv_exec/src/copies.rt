ghost use Rattle.std.specs.Prelude.{◌≡◌, ◌+◌, ◌<◌, ◌≤◌, length};
ghost use Rattle.frame_model.specs.Shown.{words_at};
ghost use Rattle.frame_model.specs.Written.{written};

/// Copies so many words from a place of one list to a place of another, where both have them.
pub fn copy_words(from: &[u32], at: usize, count: usize, to: &mut [u32], place: usize)
    ensures { at + count ≤ length from.now → place + count ≤ length to.old → to.new
        ≡ written to.old place (words_at from.now at count) }
{
    if at > from.len() || count > from.len() - at || place > to.len() || count > to.len() - place {
        return;
    }
    if count == 1 {
        copy_word(from, at, to, place);
        return;
    }
    to[place..place + count].copy_from_slice(&from[at..at + count]);
}

// Copies one word.
#[tactic(auto, using(crate::proofs::CopiedWords::one_copied))]
fn copy_word(from: &[u32], at: usize, to: &mut [u32], place: usize)
    requires within { at < length from.now }
    requires room { place < length to.old }
    ensures { to.new ≡ written to.old place (words_at from.now at 1) }
{
    to[place] = from[at];
}
