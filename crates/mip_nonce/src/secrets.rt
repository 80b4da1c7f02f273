ghost use Rattle.std.specs.Prelude.{◌≡◌, Some, IfSome};
ghost use Rattle.mip_tokens.specs.Token.{home_token_of, careof_token_of};
ghost use Rattle.mip_nonce.specs.Secrets.{Life, kcn_of, nonce_of, cookie_of, AreCookies};

use crate::cookie_row::{CookieRow, ROW};
use crate::kept_token::KeptToken;
use crate::source::Source;
use crate::window::current;
use mip_tokens::{PreparedKey, careof_token, home_token};
use mip_words::{Address, Cookie, Moment, NodeId, Token};
use std::marker::Model;

/// The secrets of one life of a node. A node that restarts begins a life with new ones. The key of the
/// life and the nonce of the last test are drawn once and kept, and so are cookies, a row at a time; the token of
/// the last test of each kind is kept too, since an update follows its tests.
#[derive(Drop)]
pub struct Secrets {
    source: Source,
    kcn: PreparedKey,
    newest: u64,
    nonce: [u8; 8],
    drawn: Option<CookieRow>,
    home: Option<KeptToken>,
    careof: Option<KeptToken>,
}

impl Model for Secrets {
    ghost use Rattle.std.specs.Prelude.{◌≡◌, IfSome};
    ghost use Rattle.mip_nonce.specs.Secrets.{Life, kcn_of, nonce_of, AreCookies, IsHomeToken, IsCareofToken};

    ghost Value = { Life };

    ghost view = { λ s. s.source };

    ghost invariant = { λ s. (s.kcn ≡ kcn_of s.source) × (s.nonce ≡ nonce_of s.source s.newest)
        × IfSome s.drawn (λ r. AreCookies s.source r.first r.cookies)
        × IfSome s.home (IsHomeToken s.source) × IfSome s.careof (IsCareofToken s.source) };
}

impl Secrets {
    /// The secrets of a node in the life that begins with its restart of this number; life 0 is the
    /// one before its first restart.
    pub fn new(seed: &[u8; 32], node: NodeId, life: u32) -> Secrets
        ensures { result ≡ record { seed = seed.now; node = node.0; life = life } }
    {
        let source = Source::new(seed, node, life);
        let kcn = PreparedKey::new(&source.kcn());
        let nonce = source.nonce(0);
        Secrets {
            source,
            kcn,
            newest: 0,
            nonce,
            drawn: None,
            home: None,
            careof: None,
        }
    }

    /// Kcn, the key of the keygen tokens (RFC 6275 section 5.2.1).
    pub fn kcn(&self) -> &PreparedKey
        ensures { result.now ≡ kcn_of self.now }
    {
        &self.kcn
    }

    /// The nonce of this number (RFC 6275 section 5.2.2).
    pub fn nonce(&self, number: u64) -> [u8; 8]
        ensures { result ≡ nonce_of self.now number }
    {
        if number == self.newest {
            self.nonce
        } else {
            self.source.nonce(number)
        }
    }

    /// The home keygen token of an address under the nonce of this number (RFC 6275 section 5.2.5).
    pub fn home_token(&self, address: Address, number: u64) -> Token
        ensures { result.0 ≡ home_token_of (kcn_of self.now) address (nonce_of self.now number) }
    {
        match kept_token(&self.home, address, number) {
            Some(token) => token,
            None => home_token(&self.kcn, address, &self.nonce(number)),
        }
    }

    /// The care-of keygen token of an address under the nonce of this number (RFC 6275 section 5.2.5).
    pub fn careof_token(&self, address: Address, number: u64) -> Token
        ensures { result.0 ≡ careof_token_of (kcn_of self.now) address (nonce_of self.now number) }
    {
        match kept_token(&self.careof, address, number) {
            Some(token) => token,
            None => careof_token(&self.kcn, address, &self.nonce(number)),
        }
    }

    /// Keeps the home token that a test gives at this moment. The secrets stay the same.
    pub fn keep_home_token(&mut self, now: Moment, address: Address)
        ensures { self.new ≡ self.old }
    {
        self.renew(now);
        let number = current(now);
        let token = self.home_token(address, number);
        self.home = Some(KeptToken {
            address,
            number,
            token,
        });
    }

    /// Keeps the care-of token that a test gives at this moment. The secrets stay the same.
    pub fn keep_careof_token(&mut self, now: Moment, address: Address)
        ensures { self.new ≡ self.old }
    {
        self.renew(now);
        let number = current(now);
        let token = self.careof_token(address, number);
        self.careof = Some(KeptToken {
            address,
            number,
            token,
        });
    }

    /// Keeps the nonce that is the newest one at this moment. The secrets stay the same.
    pub fn renew(&mut self, now: Moment)
        ensures { self.new ≡ self.old }
    {
        let newest = current(now);
        if newest != self.newest {
            self.nonce = self.source.nonce(newest);
            self.newest = newest;
        }
    }

    /// The cookie that a life draws after this many others.
    pub fn cookie(&self, number: u64) -> Cookie
        ensures { result.0 ≡ cookie_of self.now number }
    {
        match kept_cookie(&self.drawn, number) {
            Some(cookie) => cookie,
            None => self.source.cookie(number),
        }
    }

    /// Draws the cookie of this number with those beside it, where it is not yet drawn. The secrets stay the same.
    pub fn draw_cookies(&mut self, number: u64)
        ensures { self.new ≡ self.old }
    {
        if kept_cookie(&self.drawn, number).is_none() {
            let first = number - number % ROW as u64;
            self.drawn = Some(CookieRow {
                first,
                cookies: self.source.cookies(first),
            });
        }
    }
}

/// The token of this address under the nonce of this number, where it is kept.
fn kept_token(kept: &Option<KeptToken>, address: Address, number: u64) -> Option<Token>
    ensures { IfSome result (λ t. (kept.now ≡ Some (record { address = address; number = number; token = t }))) }
{
    match kept {
        Some(kept) => kept.of(address, number),
        None => None,
    }
}

/// The cookie of this number, where it is drawn.
fn kept_cookie(drawn: &Option<CookieRow>, number: u64) -> Option<Cookie>
    ensures { (life : Life) → IfSome drawn.now (λ r. AreCookies life r.first r.cookies) → IfSome result (λ c. c.0 ≡ cookie_of life number) }
{
    match drawn {
        Some(row) => row.cookie(number),
        None => None,
    }
}
