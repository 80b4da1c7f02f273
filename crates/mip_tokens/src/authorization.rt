ghost use Rattle.std.specs.Prelude.{◌≡◌, ◌≤◌, ◌-◌, ◌++◌, length, take, slice_range, IsTrue, ◌↔◌};
ghost use Rattle.mip_words.specs.Addresses.{address_bytes};
ghost use Rattle.mip_tokens.specs.Token.{authenticator_of, is_authentic, IsAuthentic};

use crate::prepared_kbm::PreparedKbm;
use mip_words::Address;

/// The bytes of an authenticator.
pub const AUTHENTICATOR: usize = 12;

/// What an authenticator covers of a message whose last 12 bytes are its place: what stands before the checksum, which
/// counts as zero, and what stands behind it.
pub fn covered(message: &[u8]) -> (&[u8], &[u8])
    ensures front { result.0.now ≡ take 4 message.now }
    ensures back { result.1.now ≡ slice_range message.now 6 (length message.now - 12) }
{
    let end = message.len().saturating_sub(AUTHENTICATOR);
    (
        message.get(..4).unwrap_or(message),
        message.get(6..end).unwrap_or(&[]),
    )
}

/// Two addresses in one piece: each further piece of what is hashed takes steps of its own.
fn both_bytes(careof: Address, peer: Address) -> [u8; 32]
    ensures { result ≡ address_bytes careof ++ address_bytes peer }
{
    let mut both = [0; 32];
    both[..16].copy_from_slice(&careof.bytes());
    both[16..32].copy_from_slice(&peer.bytes());
    both
}

/// The authenticator of a message whose last 12 bytes are its place (RFC 6275 section 6.2.7). The
/// care-of address is the one that the update binds; where it deletes, the home address stands for it.
#[tactic(auto, unfolding(crate::specs::Token::authenticator_of, crate::specs::Token::authenticated))]
pub fn authenticator(kbm: &PreparedKbm, careof: Address, peer: Address, message: &[u8]) -> [u8; 12]
    ensures { result ≡ authenticator_of kbm.now.0 careof peer message.now }
{
    let (front, back) = covered(message);
    let hash = kbm.hmac_of_parts(&[&both_bytes(careof, peer), front, &[0, 0], back]);
    let mut authenticator = [0; AUTHENTICATOR];
    authenticator.copy_from_slice(&hash[..AUTHENTICATOR]);
    authenticator
}

/// Whether a message ends with its authenticator.
pub fn authentic(kbm: &PreparedKbm, careof: Address, peer: Address, message: &[u8]) -> bool
    requires { 18 ≤ length message.now }
    ensures answers { result ≡ is_authentic kbm.now.0 careof peer message.now }
    ensures exact { IsTrue result ↔ IsAuthentic kbm.now.0 careof peer message.now }
{
    message[message.len() - AUTHENTICATOR..] == authenticator(kbm, careof, peer, message)[..]
}
