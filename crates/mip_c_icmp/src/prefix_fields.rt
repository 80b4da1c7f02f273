ghost use Rattle.std.specs.Prelude.{◌≡◌};
ghost use Rattle.mip_c_icmp.specs.Icmps.{no_prefix, prefix_fields};

use mip_icmp::PrefixInfo;

/// A Prefix Information option (RFC 4861 section 4.6.2, RFC 6275 section 7.2).
#[repr(C)]
#[derive(Clone, Copy)]
pub struct PrefixFields {
    /// How many bits of the address are the prefix.
    pub length: u8,
    /// 0x80 on-link, 0x40 autonomous, 0x20 router address.
    pub flags: u8,
    /// How long the prefix is valid, in seconds.
    pub valid: u32,
    /// How long addresses with the prefix are preferred, in seconds.
    pub preferred: u32,
    pub address: [u8; 16],
}

/// No prefix.
pub fn no_prefix() -> PrefixFields
    ensures { result ≡ no_prefix }
{
    PrefixFields {
        length: 0,
        flags: 0,
        valid: 0,
        preferred: 0,
        address: [0; 16],
    }
}

/// The fields of a prefix, if there is one.
pub fn prefix_fields(prefix: Option<PrefixInfo>) -> PrefixFields
    ensures { result ≡ prefix_fields prefix }
{
    match prefix {
        None => no_prefix(),
        Some(prefix) => PrefixFields {
            length: prefix.length,
            flags: prefix.flags,
            valid: prefix.valid,
            preferred: prefix.preferred,
            address: prefix.address.bytes(),
        },
    }
}
