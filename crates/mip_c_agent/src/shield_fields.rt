ghost use Rattle.std.specs.Prelude.{◌≡◌};
ghost use Rattle.mip_c_agent.specs.Shields.{shield_of};

use mip_c_words::addresses::address_of;
use mip_words::Shield;

/// The protection that a packet came under, which stands for IPsec between a mobile and its agent (RFC 6275 section 5.1). All
/// zeros is none.
#[repr(C)]
#[derive(Clone, Copy)]
pub struct ShieldFields {
    /// Whether the packet came under protection.
    pub is_shielded: bool,
    /// Who protected it: a mobile's home address.
    pub from: [u8; 16],
    /// Whom it was protected for: the agent's address.
    pub to: [u8; 16],
}

/// The shield that fields say.
pub fn shield_of(fields: &ShieldFields) -> Option<Shield>
    ensures { result ≡ shield_of fields.now }
{
    if fields.is_shielded {
        let from = address_of(&fields.from);
        let to = address_of(&fields.to);
        Some(Shield { from, to })
    } else {
        None
    }
}
