//! Home Agent Address Discovery, types 144 and 145 (RFC 6275 sections 6.5 and 6.6).

ghost use Rattle.std.specs.Prelude.{◌≡◌, ◌≤◌, ◌<◌, ◌^◌, ◌++◌, length, IfOk, OnOk};
ghost use Rattle.mip_words.specs.Steps.{Gives};
ghost use Rattle.mip_icmp.specs.Said.{DiscoverAsk, DiscoverReply, said, HasSpan};
ghost use Rattle.mip_icmp.specs.Reading.{agents_in};
ghost use Rattle.mip_icmp.specs.Spelling.{unsummed};

use crate::fault::IcmpFault;
use crate::message::Icmp;
use mip_words::{Bytes, Memory, u16_at, u16_bytes};

#[tactic(auto, unfolding(crate::specs::Reading::agents_in))]
pub(crate) fn agents_of(body: &[u8]) -> Result<Icmp<'_>, IcmpFault>
    requires { 8 ≤ length body.now }
    ensures exact { Gives said result (agents_in body.now) }
    ensures span { IfOk result (HasSpan body.now) }
{
    let (_, agents) = body.split_at(8);
    if agents.len() % 16 != 0 {
        return Err(IcmpFault::Option { place: 8 });
    }
    Ok(Icmp::DiscoverReply {
        identifier: u16_at(body, 4),
        agents,
    })
}

/// Appends the request with a checksum of zero.
#[tactic(auto, unfolding(crate::specs::Spelling::unsummed))]
pub(crate) fn put_discover_ask(out: &mut Bytes, identifier: u16) -> Result<(), Memory>
    ensures bytes { OnOk result (out.new ≡ out.old ++ unsummed (DiscoverAsk identifier)) }
    ensures fits { identifier < 2 ^ 16 }
{
    out.extend(&[144, 0, 0, 0])?;
    out.extend(&u16_bytes(identifier))?;
    out.extend(&[0; 2])
}

/// Appends the reply with a checksum of zero.
#[tactic(auto, unfolding(crate::specs::Spelling::unsummed))]
pub(crate) fn put_discover_reply(
    out: &mut Bytes,
    identifier: u16,
    agents: &[u8],
) -> Result<(), Memory>
    ensures bytes { OnOk result (out.new ≡ out.old ++ unsummed (DiscoverReply identifier agents.now)) }
    ensures fits { identifier < 2 ^ 16 }
{
    out.extend(&[145, 0, 0, 0])?;
    out.extend(&u16_bytes(identifier))?;
    out.extend(&[0; 2])?;
    out.extend(agents)
}
