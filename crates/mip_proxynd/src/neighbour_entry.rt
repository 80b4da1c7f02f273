/// What a table keeps of an address on a link.
#[derive(Clone, Copy, Debug, PartialEq, Eq)]
pub struct NeighbourEntry {
    /// The link-layer address of the holder.
    pub layer: [u8; 6],
    /// Whether it came in an advertisement that overrides those before.
    pub over: bool,
}
