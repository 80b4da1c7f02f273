use mip_bulist::Aim;
use mip_words::{Address, Cookie, Moment, Token};

/// A Home Test or a Care-of Test that was kept (RFC 6275 sections 6.1.5 and 6.1.6).
#[derive(Clone, Copy, Debug, PartialEq, Eq)]
pub struct Test {
    /// The nonce index.
    pub index: u16,
    pub token: Token,
    /// When it came.
    pub at: Moment,
}

/// The tests that an aim needs.
#[derive(Clone, Copy, Debug, PartialEq, Eq)]
pub enum Tested {
    /// To bind to a care-of address.
    Both {
        to: Address,
        home: Test,
        careof: Test,
    },
    /// To delete.
    Home {
        home: Test,
    },
}

/// How far return routability with a peer is.
#[derive(Clone, Copy, Debug, PartialEq, Eq)]
pub enum Stage {
    /// No test is under way.
    Idle,
    /// Tests were asked for, and not all that the aim needs have come.
    Probing {
        aim: Aim,
        home_cookie: Cookie,
        careof_cookie: Cookie,
        home: Option<Test>,
        careof: Option<Test>,
    },
    /// The tests that the aim needs have come.
    Proved {
        tested: Tested,
    },
    /// An update was made, and no acknowledgement of it has come.
    Pending {
        tested: Tested,
        /// The sequence of the last update made.
        last: u16,
    },
    /// The peer has the binding.
    Bound {
        aim: Aim,
    },
}

/// Return routability with a peer (RFC 6275 sections 5.2 and 11.6).
#[derive(Clone, Copy, Debug, PartialEq, Eq)]
pub struct Trial {
    /// The sequence that the next update takes.
    pub next: u16,
    /// When the last three updates were made.
    pub newest: Option<Moment>,
    pub middle: Option<Moment>,
    pub oldest: Option<Moment>,
    pub stage: Stage,
}
