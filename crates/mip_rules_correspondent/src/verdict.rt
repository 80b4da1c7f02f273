use mip_bcache::Accepted;
use mip_tokens::Kbm;
use mip_words::{Address, Why};

/// What becomes of a Binding Update (RFC 6275 sections 9.5.1 and 9.5.4).
#[derive(Clone, Copy, Debug, PartialEq, Eq)]
pub enum Verdict {
    /// The update is dropped in silence.
    Refuse(Why),
    /// The update is answered with this status and this sequence, under the key if there is one.
    Deny {
        status: u8,
        last: u16,
        kbm: Option<Kbm>,
    },
    /// The update binds or deletes, under this number of the home, for this lifetime in units of 4 s.
    Accept {
        home: Address,
        number: u8,
        accepted: Accepted,
        granted: u16,
        kbm: Kbm,
    },
}
