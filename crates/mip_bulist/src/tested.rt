ghost use Rattle.std.specs.Prelude.{◌≡◌, ℕ};
ghost use Rattle.mip_tokens.specs.Token.{kbm_of_tokens};
ghost use Rattle.mip_bulist.specs.Trials.{is_old, has_old, made_of, needed, IsOfTokens};

use crate::aim::Aim;
use crate::made::Made;
use mip_mobhdr::Indices;
use mip_tokens::Kbm;
use mip_words::constants::MAX_TOKEN_LIFETIME;
use mip_words::{Address, Moment, Token};

/// A Home Test or a Care-of Test that was kept (RFC 6275 sections 6.1.5 and 6.1.6).
#[derive(Clone, Copy, Debug, PartialEq, Eq)]
pub struct Test {
    /// The nonce index.
    pub index: u16,
    pub token: Token,
    /// When it came.
    pub at: Moment,
}

/// The tests that an aim needs.
#[derive(Clone, Copy, Debug, PartialEq, Eq)]
pub enum Tested {
    /// To bind to a care-of address.
    Both {
        to: Address,
        home: Test,
        careof: Test,
    },
    /// To delete.
    Home {
        home: Test,
    },
}

impl Test {
    /// Whether its token serves no more.
    pub fn is_old(&self, now: Moment) -> bool
        ensures { result ≡ is_old now self.now }
    {
        now.0.saturating_sub(self.at.0) >= MAX_TOKEN_LIFETIME
    }
}

impl Tested {
    /// The tests that an aim needs, where all are there.
    pub fn of(aim: Aim, home: Option<Test>, careof: Option<Test>) -> Option<Tested>
        ensures { result ≡ needed aim home careof }
    {
        match (aim, home, careof) {
            (Aim::Bind(to), Some(home), Some(careof)) => Some(Tested::Both { to, home, careof }),
            (Aim::Delete, Some(home), _) => Some(Tested::Home { home }),
            _ => None,
        }
    }

    /// Whether a token serves no more.
    pub fn is_old(&self, now: Moment) -> bool
        ensures { result ≡ has_old now self.now }
    {
        match self {
            Tested::Both {
                to: _,
                home,
                careof,
            } => home.is_old(now) || careof.is_old(now),
            Tested::Home { home } => home.is_old(now),
        }
    }

    /// The tokens of which the key of each update is made.
    pub fn tokens(&self) -> (Token, Option<Token>)
        ensures { (sequence : ℕ) → (made_of sequence self.now).kbm.0 ≡ kbm_of_tokens result.0 result.1 }
    {
        match self {
            Tested::Both {
                to: _,
                home,
                careof,
            } => (home.token, Some(careof.token)),
            Tested::Home { home } => (home.token, None),
        }
    }

    /// What an update with this sequence is written with.
    pub fn made(&self, sequence: u16) -> Made
        ensures made { result ≡ made_of sequence self.now }
        ensures key { IsOfTokens result }
    {
        match self {
            Tested::Both {
                to: _,
                home,
                careof,
            } => Made {
                sequence,
                kbm: Kbm::both(home.token, careof.token),
                indices: Indices {
                    home: home.index,
                    careof: careof.index,
                },
                home: home.token,
                careof: Some(careof.token),
            },
            Tested::Home { home } => Made {
                sequence,
                kbm: Kbm::home(home.token),
                indices: Indices {
                    home: home.index,
                    careof: 0,
                },
                home: home.token,
                careof: None,
            },
        }
    }
}
