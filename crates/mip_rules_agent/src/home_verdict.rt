use mip_words::{Address, Why};

/// What becomes of a home registration (RFC 6275 sections 10.3.1 and 10.3.2).
#[derive(Clone, Copy, Debug, PartialEq, Eq)]
pub enum HomeVerdict {
    /// The update is dropped in silence.
    Refuse(Why),
    /// The update is answered with this status and this sequence.
    Deny {
        status: u8,
        last: u16,
    },
    /// The update registers a home, or ends its registration, for this lifetime in units of 4 s.
    Accept {
        home: Address,
        careof: Address,
        sequence: u16,
        granted: u16,
    },
}
