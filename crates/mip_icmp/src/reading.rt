ghost use Rattle.std.specs.Prelude.{◌≡◌, ◌≤◌, length, Ok, IfOk};
ghost use Rattle.mip_words.specs.Steps.{Gives};
ghost use Rattle.mip_icmp.specs.Said.{Said, said, HasSpan};
ghost use Rattle.mip_icmp.specs.Fields.{least_size, is_known};
ghost use Rattle.mip_icmp.specs.Reading.{kind_of, fields_in, icmp_of};
ghost use Rattle.mip_icmp.specs.Spelling.{IsIcmp};

use crate::advertisement::advertisement_of;
use crate::discovery::agents_of;
use crate::fault::IcmpFault;
use crate::message::Icmp;
use crate::parameter::parameter_of;
use crate::prefixes::prefixes_of;
use mip_ipv6::checksum_holds;
use mip_words::{Address, u16_at};

/// The protocol number of ICMPv6.
pub(crate) const PROTO: u8 = 58;

/// The type of a message, after all tests that come before its fields.
#[tactic(auto, unfolding(crate::specs::Reading::kind_of))]
fn checked(source: Address, destination: Address, body: &[u8]) -> Result<u8, IcmpFault>
    requires { length body.now ≤ 65535 }
    ensures exact { Gives (λ t. t) result (kind_of source destination body.now) }
    ensures long { IfOk result (λ t. least_size t ≤ length body.now) }
{
    if body.len() < 8 || (body[0] == 134 && body.len() < 16) {
        return Err(IcmpFault::Short);
    }
    if !checksum_holds(source, destination, PROTO, body) {
        return Err(IcmpFault::Checksum);
    }
    let kind = body[0];
    let code = body[1];
    if !is_known(kind) || code != 0 {
        return Err(IcmpFault::Unknown { kind, code });
    }
    Ok(kind)
}

/// Whether Mobile IPv6 uses this type.
fn is_known(kind: u8) -> bool
    ensures { result ≡ is_known kind }
{
    matches!(kind, 4 | 134 | 144..=147)
}

/// The fields of a message of a known type.
#[tactic(auto, unfolding(crate::specs::Reading::fields_in))]
fn fields_of(kind: u8, body: &[u8]) -> Result<Icmp<'_>, IcmpFault>
    requires long { least_size kind ≤ length body.now }
    ensures exact { Gives said result (fields_in kind body.now) }
    ensures span { IfOk result (HasSpan body.now) }
{
    match kind {
        4 => Ok(parameter_of(body)),
        134 => advertisement_of(body),
        144 => Ok(Icmp::DiscoverAsk {
            identifier: u16_at(body, 4),
        }),
        145 => agents_of(body),
        146 => Ok(Icmp::PrefixAsk {
            identifier: u16_at(body, 4),
        }),
        _ => prefixes_of(body),
    }
}

/// What the message says, by all tests in their order.
#[tactic(auto, unfolding(crate::specs::Reading::icmp_of))]
fn message_of(source: Address, destination: Address, body: &[u8]) -> Result<Icmp<'_>, IcmpFault>
    requires { length body.now ≤ 65535 }
    ensures exact { Gives said result (icmp_of source destination body.now) }
    ensures span { IfOk result (HasSpan body.now) }
{
    let kind = checked(source, destination, body)?;
    fields_of(kind, body)
}

/// What an ICMPv6 message between these addresses says. The source is that of the Home Address option and
/// the destination that of the routing header, where the packet has them (RFC 8200 section 8.1).
pub fn read_icmp(source: Address, destination: Address, body: &[u8]) -> Result<Icmp<'_>, IcmpFault>
    requires { length body.now ≤ 65535 }
    ensures found { IfOk result (λ m. IsIcmp source destination (said m) body.now) }
    ensures only { (m : Said) → IsIcmp source destination m body.now → Gives said result (Ok m) }
    ensures exact { Gives said result (icmp_of source destination body.now) }
    ensures span { IfOk result (HasSpan body.now) }
{
    message_of(source, destination, body)
}
