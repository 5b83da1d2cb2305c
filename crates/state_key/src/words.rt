//! A key as it is written, word by word.
ghost use Rattle.std.specs.Prelude.{◌≡◌, ◌+◌, ◌≤◌, ◌<◌, List, ℕ, [], ◌∷◌, ◌++◌, take, length};
ghost use Rattle.limits.specs.declared.TheConstants.{KEY_WORDS};

use limits::KEY_WORDS;
use std::marker::Model;

/// The words of a key so far.
#[derive(Drop)]
pub struct KeyWords {
    words: [u64; KEY_WORDS],
    len: usize,
}

impl Model for KeyWords {
    ghost Value = { List ℕ };

    ghost view = { λ w. take w.len w.words };

    ghost invariant = { λ w. w.len ≤ KEY_WORDS };
}

impl KeyWords {
    /// No words yet.
    pub fn new() -> KeyWords
        ensures { result ≡ [] }
    {
        KeyWords {
            words: [0; KEY_WORDS],
            len: 0,
        }
    }

    /// The next word.
    pub fn push(&mut self, word: u64)
        requires { length self.old < KEY_WORDS }
        ensures { self.new ≡ self.old ++ word ∷ [] }
    {
        self.words[self.len] = word;
        self.len += 1;
    }

    /// The key, once all its words are there.
    pub fn finish(self) -> [u64; KEY_WORDS]
        requires { length self ≡ KEY_WORDS }
        ensures { result ≡ self }
    {
        self.words
    }
}
