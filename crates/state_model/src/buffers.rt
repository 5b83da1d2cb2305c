use sqlite_items::Items;

/// The buffers that draws read, each a list of 32-bit words.
#[derive(Debug, Drop)]
pub struct Buffers {
    /// By the buffers' numbers.
    pub list: Items<Items<u32>>,
}
