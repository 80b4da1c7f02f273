/// What became of a packet that a wire took.
#[derive(Clone, Copy, Debug, PartialEq, Eq)]
pub enum Put {
    /// The packet was sent.
    Sent,
    /// The packet was not sent: there is no way to its destination.
    NoRoute,
    /// The packet was not sent: it is longer than the wire carries.
    Oversize,
}
