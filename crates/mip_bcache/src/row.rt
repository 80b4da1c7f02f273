ghost use Rattle.std.specs.Prelude.{◌≡◌};
ghost use Rattle.mip_bcache.specs.Seen.{stands, stands_under, stands_at};

use mip_words::{Address, Moment};

/// A row of a binding cache: what the last update that was accepted for a home under a number says. A
/// deleted binding has home as its care-of address; its row stays until `kept_until`, since the sequence of
/// its home is kept to that moment.
#[derive(Clone, Copy, Debug, PartialEq, Eq)]
pub struct Row {
    pub home: Address,
    /// Which binding of its home this is; 0 where a home has one.
    pub number: u8,
    pub careof: Address,
    pub sequence: u16,
    pub end: Moment,
    pub kept_until: Moment,
    /// The number of the nonce of the home token, and that of the care-of token unless it is a deletion.
    pub home_nonce: u64,
    pub careof_nonce: Option<u64>,
}

impl Row {
    /// Whether its binding stands: its care-of address is not home, and its end lies ahead.
    pub(crate) fn stands(&self, now: Moment, home: Address) -> bool
        ensures { result ≡ stands home.0 now.0 self.now }
    {
        self.careof.0 != home.0 && now.0 < self.end.0
    }

    /// Whether it stands under this number.
    pub(crate) fn stands_under(&self, now: Moment, home: Address, number: u8) -> bool
        ensures { result ≡ stands_under home.0 number now.0 self.now }
    {
        self.stands(now, home) && self.number == number
    }

    /// Whether it stands at this care-of address.
    pub(crate) fn stands_at(&self, now: Moment, home: Address, careof: Address) -> bool
        ensures { result ≡ stands_at home.0 now.0 careof.0 self.now }
    {
        self.stands(now, home) && self.careof.0 == careof.0
    }
}
