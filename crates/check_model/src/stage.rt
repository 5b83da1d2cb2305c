/// The shader stage of a module (SPIR-V specification, section 3.3 "Execution Model").
#[derive(Clone, Copy, Debug, Drop, PartialEq, Eq)]
pub enum Stage {
    Vertex,
    Fragment,
}
