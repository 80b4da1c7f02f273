use crate::aim::Aim;
use crate::tested::{Test, Tested};
use mip_words::Cookie;

mod sealed {
    pub trait Sealed {}
}

/// A state of return routability with a peer.
pub trait State: sealed::Sealed + Copy {}

/// No test is under way.
#[derive(Clone, Copy, Debug, PartialEq, Eq)]
pub struct Idle;

/// Tests were asked for, and not all that the aim needs have come.
#[derive(Clone, Copy, Debug, PartialEq, Eq)]
pub struct Probing {
    pub(crate) aim: Aim,
    pub(crate) home_cookie: Cookie,
    pub(crate) careof_cookie: Cookie,
    pub(crate) home: Option<Test>,
    pub(crate) careof: Option<Test>,
}

/// The tests that the aim needs have come.
#[derive(Clone, Copy, Debug, PartialEq, Eq)]
pub struct Proved {
    pub(crate) tested: Tested,
}

/// An update was made, and no acknowledgement of it has come.
#[derive(Clone, Copy, Debug, PartialEq, Eq)]
pub struct Pending {
    pub(crate) tested: Tested,
    /// The sequence of the last update made.
    pub(crate) last: u16,
}

/// The peer has the binding.
#[derive(Clone, Copy, Debug, PartialEq, Eq)]
pub struct Bound {
    pub(crate) aim: Aim,
}

impl sealed::Sealed for Idle {}

impl sealed::Sealed for Probing {}

impl sealed::Sealed for Proved {}

impl sealed::Sealed for Pending {}

impl sealed::Sealed for Bound {}

impl State for Idle {}

impl State for Probing {}

impl State for Proved {}

impl State for Pending {}

impl State for Bound {}
