ghost use Rattle.std.specs.Prelude.{◌≡◌};
ghost use Rattle.mip_words.specs.Addresses.{joined_address};

use crate::address::Address;

/// The first 64 bits of the addresses of a link.
#[derive(Clone, Copy, Debug, PartialEq, Eq)]
pub struct Prefix(pub u64);

/// The last 64 bits of the Mobile IPv6 home-agents anycast address (RFC 2526 sections 2 and 3).
pub const HOME_AGENTS: u64 = 0xfdff_ffff_ffff_fffe;

impl Prefix {
    /// The address with this prefix and these last 64 bits.
    pub fn join(self, interface: u64) -> Address
        ensures { result.0 ≡ joined_address self.0 interface }
    {
        Address(self.0 as u128 * 0x1_0000_0000_0000_0000 + interface as u128)
    }

    /// The home-agents anycast address of this prefix.
    pub fn anycast(self) -> Address
        ensures { result.0 ≡ joined_address self.0 HOME_AGENTS }
    {
        self.join(HOME_AGENTS)
    }
}
