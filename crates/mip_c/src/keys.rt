//! Return routability's keyed values.

ghost use Rattle.std.specs.Prelude.{◌≡◌, ◌≤◌, ◌↔◌, length, IsTrue};
ghost use Rattle.mip_words.specs.Addresses.{address_at};
ghost use Rattle.mip_tokens.specs.Token.{home_token_of, careof_token_of, kbm_both_of, kbm_home_of, authenticator_of, IsAuthentic};

use mip_c_words::addresses::address_of;
use mip_tokens::{
    Kbm, PreparedKbm, PreparedKey, authentic, authenticator, careof_token, home_token,
};
use mip_words::Token;

/// The home keygen token of an address under a nonce, by the correspondent's key Kcn (RFC 6275 section 5.2.5).
#[unsafe(no_mangle)]
pub extern "C" fn mip_home_token(
    kcn: &[u8; 20],
    address: &[u8; 16],
    nonce: &[u8; 8],
    token: &mut [u8; 8],
)
    ensures { token.new ≡ home_token_of kcn.now (address_at 0 address.now) nonce.now }
{
    let made = home_token(&PreparedKey::new(kcn), address_of(address), nonce);
    let bytes = made.0;
    *token = bytes;
}

/// The care-of keygen token of an address under a nonce, by the correspondent's key Kcn (RFC 6275 section 5.2.5).
#[unsafe(no_mangle)]
pub extern "C" fn mip_careof_token(
    kcn: &[u8; 20],
    address: &[u8; 16],
    nonce: &[u8; 8],
    token: &mut [u8; 8],
)
    ensures { token.new ≡ careof_token_of kcn.now (address_at 0 address.now) nonce.now }
{
    let made = careof_token(&PreparedKey::new(kcn), address_of(address), nonce);
    let bytes = made.0;
    *token = bytes;
}

/// The binding management key of an update that binds, from a home and a care-of keygen token (RFC 6275 section 5.2.5).
#[unsafe(no_mangle)]
pub extern "C" fn mip_kbm(home: &[u8; 8], careof: &[u8; 8], kbm: &mut [u8; 20])
    ensures { kbm.new ≡ kbm_both_of home.now careof.now }
{
    let made = Kbm::both(Token(*home), Token(*careof));
    let bytes = made.0;
    *kbm = bytes;
}

/// The binding management key of an update that deletes a binding, from a home keygen token (RFC 6275 section 5.2.5).
#[unsafe(no_mangle)]
pub extern "C" fn mip_kbm_deleting(home: &[u8; 8], kbm: &mut [u8; 20])
    ensures { kbm.new ≡ kbm_home_of home.now }
{
    let made = Kbm::home(Token(*home));
    let bytes = made.0;
    *kbm = bytes;
}

/// The authenticator of a message whose last 12 bytes are its place, between a care-of address and a correspondent (RFC
/// 6275 section 6.2.7). Where an update deletes a binding, the home address stands for the care-of address.
#[unsafe(no_mangle)]
pub extern "C" fn mip_authenticator(
    kbm: &[u8; 20],
    careof: &[u8; 16],
    peer: &[u8; 16],
    message: &[u8],
    tag: &mut [u8; 12],
)
    ensures { tag.new ≡ authenticator_of kbm.now (address_at 0 careof.now) (address_at 0 peer.now) message.now }
{
    let key = PreparedKbm::new(Kbm(*kbm));
    let bytes = authenticator(&key, address_of(careof), address_of(peer), message);
    *tag = bytes;
}

/// Whether a message ends with its authenticator (RFC 6275 section 6.2.7). One of fewer than 18 bytes does not.
#[unsafe(no_mangle)]
pub extern "C" fn mip_is_authentic(
    kbm: &[u8; 20],
    careof: &[u8; 16],
    peer: &[u8; 16],
    message: &[u8],
) -> bool
    ensures { IsTrue result ↔ ((18 ≤ length message.now) × IsAuthentic kbm.now (address_at 0 careof.now) (address_at 0 peer.now) message.now) }
{
    if message.len() < 18 {
        return false;
    }
    let key = PreparedKbm::new(Kbm(*kbm));
    authentic(&key, address_of(careof), address_of(peer), message)
}
