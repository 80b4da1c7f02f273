ghost use Rattle.std.specs.Prelude.{◌≡◌, ◌≤◌, ◌-◌, ◌↔◌, length, drop, IfSome, IsSome, IsTrue};
ghost use Rattle.mip_tokens.specs.Token.{IsAuthentic, authenticator_of, kbm_of_tokens};

use crate::authorization::AUTHENTICATOR;
use arrayvec::ArrayVec;
use mip_words::{Address, Token};
use std::marker::Model;

/// The longest message that a witness keeps, in bytes. No update that a mobile writes is as long.
const LONGEST: usize = 128;

/// What a check of an authenticator found: that of this message under the key of these tokens (RFC 6275 section 6.2.7). Whoever
/// asks for the same need not hash it again.
#[derive(Drop)]
pub struct Witness {
    home: Token,
    careof: Option<Token>,
    bound: Address,
    own: Address,
    message: ArrayVec<u8, LONGEST>,
    authenticator: [u8; 12],
}

impl Model for Witness {
    ghost use Rattle.std.specs.Prelude.{◌≡◌};
    ghost use Rattle.mip_tokens.specs.Token.{authenticator_of, kbm_of_tokens};
    ghost use Rattle.mip_tokens.specs.Witnesses.{Checked};

    ghost Value = { Checked };

    ghost view = { λ w. record { home = w.home; careof = w.careof; bound = w.bound; own = w.own; message = w.message.items } };

    ghost invariant = { λ w. w.authenticator ≡ authenticator_of (kbm_of_tokens w.home w.careof) w.bound w.own w.message.items };
}

impl Witness {
    /// The witness of a message that is authentic; none where it is longer than a witness keeps. The binding ends where there is no
    /// care-of token.
    pub fn new(
        home: Token,
        careof: Option<Token>,
        bound: Address,
        own: Address,
        message: &[u8],
    ) -> Option<Witness>
        requires long { 18 ≤ length message.now }
        requires authentic { IsAuthentic (kbm_of_tokens home careof) bound own message.now }
        ensures of { IfSome result (λ w. w ≡ record { home = home; careof = careof; bound = bound; own = own; message = message.now }) }
        ensures short { length message.now ≤ 128 → IsSome result }
    {
        let mut kept = ArrayVec::new();
        match kept.try_extend_from_slice(message) {
            Err(_) => None,
            Ok(()) => Some(Witness {
                home,
                careof,
                bound,
                own,
                message: kept,
                authenticator: last_bytes(message),
            }),
        }
    }

    /// Whether it is of this message, under the key of these tokens.
    fn is_of(
        &self,
        home: Token,
        careof: Option<Token>,
        bound: Address,
        own: Address,
        message: &[u8],
    ) -> bool
        ensures { IsTrue result ↔ (self.now ≡ record { home = home; careof = careof; bound = bound; own = own; message = message.now }) }
    {
        self.home == home
            && self.careof == careof
            && self.bound == bound
            && self.own == own
            && self.message.as_slice() == message
    }

    /// The authenticator of a message under the key of these tokens, where this is what was checked.
    pub fn authenticator(
        &self,
        home: Token,
        careof: Option<Token>,
        bound: Address,
        own: Address,
        message: &[u8],
    ) -> Option<[u8; 12]>
        ensures right { IfSome result (λ a. a ≡ authenticator_of (kbm_of_tokens home careof) bound own message.now) }
        ensures kept { self.now ≡ record { home = home; careof = careof; bound = bound; own = own; message = message.now } → IsSome result }
    {
        if self.is_of(home, careof, bound, own, message) {
            Some(self.authenticator)
        } else {
            None
        }
    }
}

/// The last 12 bytes of a message, where an authenticator stands.
fn last_bytes(message: &[u8]) -> [u8; 12]
    requires { 12 ≤ length message.now }
    ensures { result ≡ drop (length message.now - 12) message.now }
{
    let mut bytes = [0; AUTHENTICATOR];
    bytes.copy_from_slice(&message[message.len() - AUTHENTICATOR..]);
    bytes
}
