//! The forms of the program's words.
ghost use Rattle.std.specs.Prelude.{◌≡◌, ◌↔◌, [], ◌∷◌, map, IsTrue, IfSome, IsNone, string_bytes};
ghost use Rattle.gpl_play.specs.declared.call.StillCall as declared;
ghost use Rattle.gpl_play.specs.declared.call.TextCall as text;
ghost use Rattle.gpl_play.specs.Runs.{IsPlay, IsStill, still_words};
ghost use Rattle.gpl_play.specs.TextRuns.{IsText, text_words};

/// A call that no other thread takes part in.
#[derive(Clone, Copy, Debug, Drop, PartialEq, Eq)]
pub enum StillCall {
    /// What a trace's modules are.
    Check,
    /// Which of a trace's pipes link.
    Links,
}

/// A call that goes from modules to text, or from text to a module.
#[derive(Clone, Copy, Debug, Drop, PartialEq, Eq)]
pub enum TextCall {
    /// The listings of a trace's modules.
    Listings,
    /// The words that a listing is assembled to.
    Assembly,
}

/// Whether the words are those of a play.
pub fn is_play(words: &Vec<String>) -> bool
    ensures { IsTrue result ↔ IsPlay (map string_bytes words.now.items) }
{
    match words.as_slice() {
        [word] => word.as_str() == "play",
        _ => false,
    }
}

/// The call that the words are a form of.
pub fn still_call(words: &Vec<String>) -> Option<StillCall>
    ensures some { IfSome result
        (λ call. map string_bytes words.now.items ≡ still_words call) }
    ensures none { IsNone result ↔ (IsStill (map string_bytes words.now.items) → ⊥) }
{
    match words.as_slice() {
        [word] => call_named(word.as_str()),
        _ => None,
    }
}

/// The call of one word.
fn call_named(word: &str) -> Option<StillCall>
    ensures some { IfSome result (λ call. still_words call ≡ word.now ∷ []) }
    ensures none { IsNone result → (call : declared.StillCall)
        → still_words call ≡ word.now ∷ [] → ⊥ }
{
    if word == "check" {
        return Some(StillCall::Check);
    }
    if word == "links" {
        return Some(StillCall::Links);
    }
    None
}

/// The call between modules and text that the words are a form of.
pub fn text_call(words: &Vec<String>) -> Option<TextCall>
    ensures some { IfSome result
        (λ call. map string_bytes words.now.items ≡ text_words call) }
    ensures none { IsNone result ↔ (IsText (map string_bytes words.now.items) → ⊥) }
{
    match words.as_slice() {
        [word] => text_call_named(word.as_str()),
        _ => None,
    }
}

/// The same of one word.
fn text_call_named(word: &str) -> Option<TextCall>
    ensures some { IfSome result (λ call. text_words call ≡ word.now ∷ []) }
    ensures none { IsNone result → (call : text.TextCall)
        → text_words call ≡ word.now ∷ [] → ⊥ }
{
    if word == "text" {
        return Some(TextCall::Listings);
    }
    if word == "assemble" {
        return Some(TextCall::Assembly);
    }
    None
}
