use mip_words::Moment;

/// A discovery of home agents that is under way (RFC 6275 section 11.4.1).
#[derive(Clone, Copy, Debug, PartialEq, Eq)]
pub struct Discovery {
    pub identifier: u16,
    /// How often the request was sent again.
    pub retries: u8,
    /// When the next request is due.
    pub due: Moment,
}
