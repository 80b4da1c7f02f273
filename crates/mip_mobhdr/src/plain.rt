use crate::option_set::OptionSet;
use mip_words::{Address, Cookie, Token};

/// A message to be written: the fields of a `Message`, with the options to put in.
#[derive(Clone, Copy, Debug, PartialEq, Eq)]
pub enum Plain {
    Refresh {
        options: OptionSet,
    },
    HomeInit {
        cookie: Cookie,
        options: OptionSet,
    },
    CareofInit {
        cookie: Cookie,
        options: OptionSet,
    },
    HomeTest {
        index: u16,
        cookie: Cookie,
        token: Token,
        options: OptionSet,
    },
    CareofTest {
        index: u16,
        cookie: Cookie,
        token: Token,
        options: OptionSet,
    },
    Update {
        sequence: u16,
        ack: bool,
        home: bool,
        local: bool,
        key: bool,
        lifetime: u16,
        options: OptionSet,
    },
    Acknowledgement {
        status: u8,
        key: bool,
        sequence: u16,
        lifetime: u16,
        options: OptionSet,
    },
    Error {
        status: u8,
        home: Address,
        options: OptionSet,
    },
}
