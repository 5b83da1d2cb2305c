// What a seat of the table knows. No value of these types is made.
use std::collections::LinkedList;

// A word that is known for good.
pub(crate) enum KnownWord {
    // Of a key: the row, the place in the key, and the word.
    KeyWord(u64, u64, u64),
    // An address word that isn't 0: the unit and the word.
    AddressWord(u64, u64),
    // Of the heap: the place and the word.
    HeapWord(u64, u64),
}

// A look-up on its way along the chain of the key's bucket.
pub(crate) struct Walk {
    pub key: LinkedList<u64>,
    // The count that the look-up began with.
    pub below: u64,
    // 1 plus the row where it stands, or 0 at the end.
    pub place: u64,
}

// What the creator knows of the rows.
pub(crate) struct Rows {
    pub count: u64,
    // The keys of the rows that stand in their chains: those below the count, and at most one more.
    pub linked: LinkedList<LinkedList<u64>>,
    // The words that are stored of the row behind these.
    pub draft: LinkedList<u64>,
    // Whether the next word of that row is stored.
    pub joined: bool,
}

// A unit that is built, with its record.
pub(crate) struct Unit {
    pub number: u64,
    pub words: LinkedList<u64>,
}

// What the publisher knows of the units and of the heap.
pub(crate) struct Units {
    pub built: LinkedList<Unit>,
    // The words that are stored behind the records of these.
    pub partly: LinkedList<u64>,
}

// What a seat knows.
pub(crate) struct View {
    // The count that was read last, and how many times one was read.
    pub seen: u64,
    pub looks: u64,
    pub known: LinkedList<KnownWord>,
    // The keys that aren't among the rows below a number.
    pub absent: LinkedList<(LinkedList<u64>, u64)>,
    pub walk: Option<Walk>,
    // The rows that look-ups came to, each with its bucket.
    pub walked: LinkedList<(u64, u64)>,
    // The unit and the word of each load of an address word, in order.
    pub address_loads: LinkedList<(u64, u64)>,
    pub creates: bool,
    pub rows: Rows,
    pub publishes: bool,
    pub units: Units,
}
