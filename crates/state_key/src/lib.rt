//! States: the lawful ones, the canonical form and the key.
#![tactic(auto)]

mod canonical;
mod key;
mod lawful;
mod tidy;
mod unpack;
mod words;

pub use canonical::canon;
pub use key::{key_of, state_of};
pub use lawful::Lawful;
pub use state_model::{
    Attachment, Attribute, Buffers, Depth, Entry, FragmentPart, Iface, Layout, Multisample,
    OutputPart, PrerastPart, Slot, SpecValues, State, Topology, VertexBinding, VertexPart,
};
pub use tidy::is_tidy;
