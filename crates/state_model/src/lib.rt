//! Pipeline states, keys, the four pipeline libraries and the link rules: the types, and, in `specs/`, what is meant
//! by them.
#![tactic(auto)]

pub mod buffers;
pub mod format;
pub mod iface;
pub mod parts;
pub mod rule;
pub mod vulkan;

pub use buffers::Buffers;
pub use iface::{Iface, Slot};
pub use parts::{
    Attachment, Attribute, Depth, Entry, FragmentPart, Layout, Multisample, OutputPart,
    PrerastPart, SpecValues, State, Topology, VertexBinding, VertexPart,
};
pub use rule::Rule;

/// Views, each a bit of a view mask.
pub const VIEWS: usize = 4;
