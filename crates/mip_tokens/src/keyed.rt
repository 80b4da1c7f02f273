ghost use Rattle.std.specs.Prelude.{◌≡◌, ◌++◌, ◌≤◌, List, ℕ, length};
ghost use Rattle.sha1.specs.Sha1.{Holds, sha1};
ghost use Rattle.mip_tokens.specs.Hmac.{block_key, hmac_sha1, joined, pad, padded};

use sha1::Sha1;

/// The bytes of a block of SHA-1.
const BLOCK: usize = 64;

/// The byte of the inner pad, and the one of the outer pad.
pub const INNER: u8 = 0x36;

pub const OUTER: u8 = 0x5c;

/// HMAC-SHA1 of two texts, one behind the other.
pub fn hmac(key: &[u8], first: &[u8], second: &[u8]) -> [u8; 20]
    ensures { result ≡ hmac_sha1 key.now (first.now ++ second.now) }
{
    hmac_of_parts(key, &[first, second])
}

/// HMAC-SHA1 of a text that is given in parts.
#[tactic(auto, unfolding(crate::specs::Hmac::hmac_sha1))]
pub fn hmac_of_parts(key: &[u8], parts: &[&[u8]]) -> [u8; 20]
    ensures { result ≡ hmac_sha1 key.now (joined parts.now) }
{
    keyed_hash(pad_hashed(key, INNER), pad_hashed(key, OUTER), parts)
}

/// The outer hash of the inner one, from the hashes of what stands before the text and before the inner hash.
pub fn keyed_hash(inner: Sha1, outer: Sha1, parts: &[&[u8]]) -> [u8; 20]
    ensures { (m n : List ℕ) → Holds inner m → Holds outer n → result ≡ sha1 (n ++ sha1 (m ++ joined parts.now)) }
{
    let mut inner = inner;
    for part in parts {
        inner.update(part);
    }
    let mut outer = outer;
    outer.update(&inner.finalize());
    outer.finalize()
}

/// The hash of a text that begins with the key's block, each byte of it XOR this one.
pub fn pad_hashed(key: &[u8], byte: u8) -> Sha1
    ensures { Holds result (pad byte key.now) }
{
    let mut hash = Sha1::new();
    hash.update(&key_pad(key, byte));
    hash
}

/// The key's block with each byte XOR this one.
fn key_pad(key: &[u8], byte: u8) -> [u8; 64]
    ensures { result ≡ pad byte key.now }
{
    let mut block = key_block(key);
    for b in block.iter_mut() {
        *b ^= byte;
    }
    block
}

/// The key, or the hash of a long one, with zeros behind it.
fn key_block(key: &[u8]) -> [u8; 64]
    ensures { result ≡ block_key key.now }
{
    if BLOCK < key.len() {
        zero_padded(&Sha1::digest(key))
    } else {
        zero_padded(key)
    }
}

fn zero_padded(key: &[u8]) -> [u8; 64]
    requires { length key.now ≤ 64 }
    ensures { result ≡ padded key.now }
{
    let mut block = [0; 64];
    block[..key.len()].copy_from_slice(key);
    block
}
