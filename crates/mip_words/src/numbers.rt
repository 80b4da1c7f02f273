//! Numbers in bytes, the highest byte first.

ghost use Rattle.std.specs.Prelude.{◌≡◌, ◌+◌, ◌≤◌, length};
ghost use Rattle.mip_words.specs.Numbers.{number_at, number_bytes};

use byteorder::{BigEndian, ByteOrder};

/// The number in the two bytes from a place.
#[tactic(auto, unfolding(crate::specs::Numbers::number_at))]
pub fn u16_at(bytes: &[u8], place: usize) -> u16
    requires { place + 2 ≤ length bytes.now }
    ensures { result ≡ number_at 2 place bytes.now }
{
    BigEndian::read_u16(&bytes[place..])
}

/// The number in the four bytes from a place.
#[tactic(auto, unfolding(crate::specs::Numbers::number_at))]
pub fn u32_at(bytes: &[u8], place: usize) -> u32
    requires { place + 4 ≤ length bytes.now }
    ensures { result ≡ number_at 4 place bytes.now }
{
    BigEndian::read_u32(&bytes[place..])
}

/// The number in the eight bytes from a place.
#[tactic(auto, unfolding(crate::specs::Numbers::number_at))]
pub fn u64_at(bytes: &[u8], place: usize) -> u64
    requires { place + 8 ≤ length bytes.now }
    ensures { result ≡ number_at 8 place bytes.now }
{
    BigEndian::read_u64(&bytes[place..])
}

/// The two bytes of a number.
#[tactic(auto, unfolding(crate::specs::Numbers::number_bytes))]
pub fn u16_bytes(number: u16) -> [u8; 2]
    ensures { result ≡ number_bytes 2 number }
{
    let mut bytes = [0; 2];
    BigEndian::write_u16(&mut bytes, number);
    bytes
}

/// The four bytes of a number.
#[tactic(auto, unfolding(crate::specs::Numbers::number_bytes))]
pub fn u32_bytes(number: u32) -> [u8; 4]
    ensures { result ≡ number_bytes 4 number }
{
    let mut bytes = [0; 4];
    BigEndian::write_u32(&mut bytes, number);
    bytes
}

/// The eight bytes of a number.
#[tactic(auto, unfolding(crate::specs::Numbers::number_bytes))]
pub fn u64_bytes(number: u64) -> [u8; 8]
    ensures { result ≡ number_bytes 8 number }
{
    let mut bytes = [0; 8];
    BigEndian::write_u64(&mut bytes, number);
    bytes
}
