/// What a link was asked.
#[derive(Clone, Copy, Debug, PartialEq, Eq)]
pub enum Asked {
    /// To listen on a port.
    Listen,
    /// To send a datagram.
    Send,
    /// To wait for a datagram.
    Receive,
}
