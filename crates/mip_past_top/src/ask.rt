use mip_symbols::Name;

/// What is asked for: the place behind a line of the trace, 0 being the beginning, and a node, or none for each.
#[derive(Clone, Copy)]
pub struct Ask {
    pub line: u32,
    pub node: Option<Name>,
}
