//! Router Advertisement, type 134 (RFC 4861 section 4.2, RFC 6275 section 7.1).

ghost use Rattle.std.specs.Prelude.{◌≡◌, ◌≤◌, ◌<◌, ◌^◌, ◌++◌, length, IfOk, OnOk};
ghost use Rattle.mip_words.specs.Steps.{Gives};
ghost use Rattle.mip_icmp.specs.Said.{Advertisement, said, HasSpan};
ghost use Rattle.mip_icmp.specs.Fields.{is_agent_flag};
ghost use Rattle.mip_icmp.specs.Reading.{advertisement_in};
ghost use Rattle.mip_icmp.specs.Spelling.{agent_flag, unsummed};
ghost use Rattle.mip_icmp.specs.SpellingLaws.{FitsSet};

use crate::area::read_area;
use crate::fault::IcmpFault;
use crate::message::Icmp;
use crate::option_writing::put_options;
use crate::options::IcmpSet;
use mip_words::{Bytes, Memory, u16_at, u16_bytes};

/// Flag H, the router is a home agent, in the byte of flags.
const AGENT: u8 = 0x20;

fn has_agent_flag(flags: u8) -> bool
    ensures { result ≡ is_agent_flag flags }
{
    flags / AGENT % 2 == 1
}

#[tactic(auto, unfolding(crate::specs::Reading::advertisement_in))]
pub(crate) fn advertisement_of(body: &[u8]) -> Result<Icmp<'_>, IcmpFault>
    requires { 16 ≤ length body.now }
    ensures exact { Gives said result (advertisement_in body.now) }
    ensures span { IfOk result (HasSpan body.now) }
{
    let options = read_area(body, 16)?;
    Ok(Icmp::Advertisement {
        hop: body[4],
        agent: has_agent_flag(body[5]),
        life: u16_at(body, 6),
        options,
    })
}

/// The byte of flags.
fn flags(agent: bool) -> u8
    ensures { result ≡ agent_flag agent }
{
    if agent { AGENT } else { 0 }
}

/// Appends the message with a checksum of zero.
#[tactic(auto, unfolding(crate::specs::Spelling::unsummed))]
pub(crate) fn put_advertisement(
    out: &mut Bytes,
    hop: u8,
    agent: bool,
    life: u16,
    options: IcmpSet,
) -> Result<(), Memory>
    ensures bytes { OnOk result (out.new ≡ out.old ++ unsummed (Advertisement hop agent life options)) }
    ensures fits { OnOk result ((life < 2 ^ 16) × FitsSet options) }
{
    out.extend(&[134, 0, 0, 0, hop, flags(agent)])?;
    out.extend(&u16_bytes(life))?;
    out.extend(&[0; 8])?;
    put_options(out, options)
}
