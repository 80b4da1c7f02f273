use crate::trial::Test;
use mip_bulist::Aim;
use mip_words::{Address, Cookie};

/// What is done to a trial.
#[derive(Clone, Copy, Debug, PartialEq, Eq)]
pub enum Change {
    /// It starts anew, with these cookies.
    Start {
        aim: Aim,
        home: Cookie,
        careof: Cookie,
    },
    /// It is given a Home Test that came from a sender with a cookie.
    HomeTest {
        sender: Address,
        cookie: Cookie,
        test: Test,
    },
    /// It is given a Care-of Test that came from a sender with a cookie.
    CareofTest {
        sender: Address,
        cookie: Cookie,
        test: Test,
    },
    /// An update is made.
    Make,
    /// The peer's last accepted sequence was this one.
    Resequence {
        last: u16,
    },
    /// The last update was acknowledged, for so many units.
    Acknowledge {
        sequence: u16,
        granted: u16,
    },
    /// It is given up.
    Rest,
}
