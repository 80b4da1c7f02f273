use mip_words::Moment;

/// What a mobile keeps of a peer beside its trial (RFC 6275 section 11.1).
#[derive(Clone, Copy, Debug, PartialEq, Eq)]
pub struct Peer {
    /// An update was sent, and no deletion was acknowledged since.
    pub touched: bool,
    /// The end of the binding that the peer acknowledged.
    pub bound: Option<Moment>,
    /// How many milliseconds the resending under way waits.
    pub wait: u64,
}
