/// The link-layer addresses that the options of a message have (RFC 4861 section 4.6.1).
#[derive(Clone, Copy, Debug, PartialEq, Eq)]
pub struct Layers {
    /// The sender's: the first option 1.
    pub source: Option<[u8; 6]>,
    /// The target's: the first option 2.
    pub target: Option<[u8; 6]>,
}
