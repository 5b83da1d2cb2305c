//! What a table is made with.
ghost use Rattle.std.specs.Prelude.{ℕ, List, ◌≡◌, ◌≤◌, length};
ghost use Rattle.inst_table.specs.Subject.{Subject};

/// What the instances of a table fit. A unit is a library, by its number, or the pair of a key.
pub trait Fit: Send + Sync + Drop {
    // The keys that may be asked.
    ghost asked: { Self → List (List ℕ) };

    // Which records fit a unit.
    ghost fits: { Self → Subject → List ℕ → Type 0 };

    // The greatest length of a record of the unit.
    ghost longest: { Self → Subject → ℕ };

    // How many libraries there are.
    ghost library_count: { Self → ℕ };

    /// How many libraries there are. Their units are the numbers below this one.
    fn libraries(&self) -> u32
        ensures { result ≡ library_count self.now };

    ghost within: { (fit : Self) (unit : Subject) (words : List ℕ) → fits fit unit words → length words ≤ longest fit unit };
}

// The numbers of libraries, of rows and of heap words.
#[derive(Clone, Copy, Drop)]
pub(crate) struct Numbers {
    pub libraries: u32,
    pub rows: u32,
    pub heap: u64,
}

// What the rule knows of a table: its value, and its numbers, of which the libraries are the value's.
#[derive(Drop)]
pub(crate) struct Setup<F: Fit> {
    pub fit: F,
    pub numbers: Numbers,
    ghost libraries: { numbers.libraries ≡ F.library_count fit },
}
