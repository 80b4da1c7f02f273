ghost use Rattle.std.specs.Prelude.{◌≡◌, ℕ, MatchOption};
ghost use Rattle.mip_nonce.specs.Window.{current_of, IsNamed, number_named};

use mip_words::Moment;
use mip_words::constants::{NONCE_PERIOD, VALID_NONCES};

/// The number of the newest nonce.
pub fn current(now: Moment) -> u64
    ensures { result ≡ current_of now.0 }
{
    now.0 / NONCE_PERIOD
}

/// The number of the valid nonce that an index names. A nonce is valid from the moment at which it
/// is the newest one until eight periods of 30 seconds have passed (RFC 6275 section 5.2.5).
#[tactic(auto, unfolding(crate::specs::Window::number_named))]
pub fn by_index(now: Moment, index: u16) -> Option<u64>
    ensures answers { result ≡ number_named now.0 index }
    ensures exact { MatchOption result ((n : ℕ) → IsNamed now.0 index n → ⊥) (IsNamed now.0 index) }
    ensures single { (n : ℕ) → IsNamed now.0 index n → result ≡ Some n }
{
    let newest = current(now);
    let behind = ((newest % 0x1_0000) as u16).wrapping_sub(index) as u64;
    if behind < VALID_NONCES && behind <= newest {
        Some(newest - behind)
    } else {
        None
    }
}
