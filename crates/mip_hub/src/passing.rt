/// What becomes of a datagram.
#[derive(Clone, Copy)]
pub enum Passing {
    /// The datagram is no frame, or its packet is refused.
    Dropped(&'static [u8]),
    /// No port has its destination.
    Gone,
    /// The datagram's turn has no copies.
    Lost,
    /// The datagram is sent to a port so many times.
    To { port: u16, count: u8 },
}
