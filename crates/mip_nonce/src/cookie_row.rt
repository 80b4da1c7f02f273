ghost use Rattle.std.specs.Prelude.{◌≡◌, IfSome};
ghost use Rattle.mip_nonce.specs.Secrets.{Life, cookie_of, AreCookies};

use mip_words::Cookie;

/// How many cookies are drawn at a time: so many words are made at once of ChaCha20.
pub const ROW: usize = 32;

/// Cookies of a life that were drawn one behind the other.
#[derive(Clone, Copy, Debug, PartialEq, Eq)]
pub struct CookieRow {
    /// The number of the first of them.
    pub first: u64,
    pub cookies: [u64; ROW],
}

impl CookieRow {
    /// The cookie of this number, where it is one of the row.
    pub fn cookie(&self, number: u64) -> Option<Cookie>
        ensures { (life : Life) → AreCookies life self.now.first self.now.cookies → IfSome result (λ c. c.0 ≡ cookie_of life number) }
    {
        if number < self.first || number - self.first >= ROW as u64 {
            return None;
        }
        let place = (number - self.first) as usize;
        Some(Cookie(self.cookies[place]))
    }
}
