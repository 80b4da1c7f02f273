use crate::options::Options;
use mip_words::{Address, Cookie, Token};

/// A message that was read. Lifetimes are in units of 4 s.
#[derive(Clone, Copy, Debug, PartialEq, Eq)]
pub enum Message<'a> {
    /// Binding Refresh Request (RFC 6275 section 6.1.2).
    Refresh {
        options: Options<'a>,
    },
    /// Home Test Init (section 6.1.3).
    HomeInit {
        cookie: Cookie,
        options: Options<'a>,
    },
    /// Care-of Test Init (section 6.1.4).
    CareofInit {
        cookie: Cookie,
        options: Options<'a>,
    },
    /// Home Test (section 6.1.5).
    HomeTest {
        index: u16,
        cookie: Cookie,
        token: Token,
        options: Options<'a>,
    },
    /// Care-of Test (section 6.1.6).
    CareofTest {
        index: u16,
        cookie: Cookie,
        token: Token,
        options: Options<'a>,
    },
    /// Binding Update (section 6.1.7) with its flags A, H, L and K.
    Update {
        sequence: u16,
        ack: bool,
        home: bool,
        local: bool,
        key: bool,
        lifetime: u16,
        options: Options<'a>,
    },
    /// Binding Acknowledgement (section 6.1.8) with its flag K.
    Acknowledgement {
        status: u8,
        key: bool,
        sequence: u16,
        lifetime: u16,
        options: Options<'a>,
    },
    /// Binding Error (section 6.1.9).
    Error {
        status: u8,
        home: Address,
        options: Options<'a>,
    },
}
