ghost use Rattle.std.specs.Prelude.{◌≡◌, ◌+◌, ◌<◌, ◌≤◌, ◌^◌, ◌++◌, length, Ok, IfOk};
ghost use Rattle.mip_words.specs.Numbers.{number_at, number_bytes};
ghost use Rattle.mip_words.specs.Hex.{hex_of};
ghost use Rattle.mip_words.specs.Addresses.{address_at, address_bytes, prefix_of, is_routable, address_read};

use crate::hex::{hex_exact, hex_into};
use crate::numbers::u64_bytes;
use crate::prefix::Prefix;
use byteorder::{BigEndian, ByteOrder};

/// An IPv6 address, its first byte the highest (RFC 4291).
#[derive(Clone, Copy, Debug, PartialEq, Eq, PartialOrd, Ord)]
pub struct Address(pub u128);

/// All nodes of a link, ff02::1 (RFC 4291 section 2.7.1).
pub const ALL_NODES: Address = Address(0xff02_0000_0000_0000_0000_0000_0000_0001);

/// The text is not 32 lower-case hexadecimal digits.
#[derive(Clone, Copy, Debug, PartialEq, Eq)]
pub struct NotAddress;

impl Address {
    /// The address that a text of 32 lower-case hexadecimal digits names.
    pub fn read(text: &[u8]) -> Result<Address, NotAddress>
        ensures exact { result ≡ address_read text.now }
        ensures found { IfOk result (λ a. text.now ≡ hex_of (address_bytes a)) }
        ensures only { (a : Address) → a.0 < 2 ^ 128 → text.now ≡ hex_of (address_bytes a) → result ≡ Ok a }
    {
        read_digits(text)
    }

    /// The 32 lower-case hexadecimal digits of the address.
    pub fn digits(self) -> [u8; 32]
        ensures { result ≡ hex_of (address_bytes self) }
    {
        let mut digits = [0; 32];
        hex_into(&self.bytes(), &mut digits);
        digits
    }

    /// The address in the 16 bytes from a place.
    #[tactic(auto, unfolding(crate::specs::Numbers::number_at))]
    pub fn at(bytes: &[u8], place: usize) -> Address
        requires { place + 16 ≤ length bytes.now }
        ensures { result ≡ address_at place bytes.now }
    {
        Address(BigEndian::read_u128(&bytes[place..]))
    }

    /// The 16 bytes of the address, by halves: the bytes of a number of 64 bits take one instruction.
    #[tactic(auto, using(crate::proofs::AddressLaws::halves))]
    pub fn bytes(self) -> [u8; 16]
        ensures { result ≡ address_bytes self }
    {
        let high = u64_bytes((self.0 / 0x1_0000_0000_0000_0000) as u64);
        let low = u64_bytes((self.0 % 0x1_0000_0000_0000_0000) as u64);
        joined(high, low)
    }

    /// The first 64 bits.
    pub fn prefix(self) -> Prefix
        ensures { result.0 ≡ prefix_of self.0 }
    {
        Prefix((self.0 / 0x1_0000_0000_0000_0000) as u64)
    }

    /// Whether a packet may be sent to this address through a router: it is not unspecified, loopback,
    /// multicast or link-local (RFC 4291 section 2.4).
    pub fn routable(self) -> bool
        ensures { result ≡ is_routable self.0 }
    {
        let first_byte = self.0 / 0x0100_0000_0000_0000_0000_0000_0000_0000;
        let first_ten_bits = self.0 / 0x40_0000_0000_0000_0000_0000_0000_0000;
        self.0 != 0 && self.0 != 1 && first_byte != 0xff && first_ten_bits != 0x3fa
    }
}

fn joined(high: [u8; 8], low: [u8; 8]) -> [u8; 16]
    ensures { result ≡ high ++ low }
{
    let mut bytes = [0; 16];
    bytes[..8].copy_from_slice(&high);
    bytes[8..16].copy_from_slice(&low);
    bytes
}

#[tactic(auto, unfolding(crate::specs::Addresses::address_read))]
fn read_digits(text: &[u8]) -> Result<Address, NotAddress>
    ensures { result ≡ address_read text.now }
{
    let mut bytes = [0; 16];
    if !hex_exact(text, &mut bytes) {
        return Err(NotAddress);
    }
    Ok(Address::at(&bytes, 0))
}
