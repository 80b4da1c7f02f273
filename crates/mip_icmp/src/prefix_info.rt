ghost use Rattle.std.specs.Prelude.{◌≡◌, ◌≤◌, length};
ghost use Rattle.mip_icmp.specs.Options.{prefix_at};
ghost use Rattle.mip_icmp.specs.Reading.{preferred_of};

use mip_words::{Address, u32_at};

/// What a Prefix Information option says (RFC 4861 section 4.6.2, RFC 6275 section 7.2).
#[derive(Clone, Copy, Debug, PartialEq, Eq)]
pub struct PrefixInfo {
    /// How many bits of the address are the prefix.
    pub length: u8,
    /// 0x80 on-link, 0x40 autonomous, 0x20 router address.
    pub flags: u8,
    /// How long the prefix is valid, in seconds.
    pub valid: u32,
    /// How long addresses with the prefix are preferred, in seconds.
    pub preferred: u32,
    pub address: Address,
}

impl PrefixInfo {
    /// What the option says that begins these bytes.
    pub(crate) fn at(option: &[u8]) -> PrefixInfo
        requires { 32 ≤ length option.now }
        ensures { result ≡ prefix_at option.now }
    {
        PrefixInfo {
            length: option[2],
            flags: option[3],
            valid: u32_at(option, 4),
            preferred: u32_at(option, 8),
            address: Address::at(option, 16),
        }
    }

    /// Which of two options counts: the first whose prefix has 64 bits, else the first.
    pub(crate) fn preferred_of(earlier: Option<PrefixInfo>, later: PrefixInfo) -> PrefixInfo
        ensures { result ≡ preferred_of earlier later }
    {
        match earlier {
            None => later,
            Some(info) => {
                if info.length == 64 || later.length != 64 {
                    info
                } else {
                    later
                }
            }
        }
    }
}
