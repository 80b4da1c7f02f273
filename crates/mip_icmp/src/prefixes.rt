//! Mobile Prefix Solicitation and Advertisement, types 146 and 147 (RFC 6275 sections 6.7 and 6.8).

ghost use Rattle.std.specs.Prelude.{◌≡◌, ◌≤◌, ◌<◌, ◌^◌, ◌++◌, length, IfOk, OnOk};
ghost use Rattle.mip_words.specs.Steps.{Gives};
ghost use Rattle.mip_icmp.specs.Said.{PrefixAsk, PrefixReply, said, HasSpan};
ghost use Rattle.mip_icmp.specs.Reading.{prefixes_in};
ghost use Rattle.mip_icmp.specs.Spelling.{unsummed};
ghost use Rattle.mip_icmp.specs.SpellingLaws.{FitsSet};

use crate::area::read_area;
use crate::fault::IcmpFault;
use crate::message::Icmp;
use crate::option_writing::put_options;
use crate::options::IcmpSet;
use mip_words::{Bytes, Memory, u16_at, u16_bytes};

#[tactic(auto, unfolding(crate::specs::Reading::prefixes_in))]
pub(crate) fn prefixes_of(body: &[u8]) -> Result<Icmp<'_>, IcmpFault>
    requires { 8 ≤ length body.now }
    ensures exact { Gives said result (prefixes_in body.now) }
    ensures span { IfOk result (HasSpan body.now) }
{
    let options = read_area(body, 8)?;
    Ok(Icmp::PrefixReply {
        identifier: u16_at(body, 4),
        options,
    })
}

/// Appends the solicitation with a checksum of zero.
#[tactic(auto, unfolding(crate::specs::Spelling::unsummed))]
pub(crate) fn put_prefix_ask(out: &mut Bytes, identifier: u16) -> Result<(), Memory>
    ensures bytes { OnOk result (out.new ≡ out.old ++ unsummed (PrefixAsk identifier)) }
    ensures fits { identifier < 2 ^ 16 }
{
    out.extend(&[146, 0, 0, 0])?;
    out.extend(&u16_bytes(identifier))?;
    out.extend(&[0; 2])
}

/// Appends the advertisement with a checksum of zero; the flags M and O are zero too.
#[tactic(auto, unfolding(crate::specs::Spelling::unsummed))]
pub(crate) fn put_prefix_reply(
    out: &mut Bytes,
    identifier: u16,
    options: IcmpSet,
) -> Result<(), Memory>
    ensures bytes { OnOk result (out.new ≡ out.old ++ unsummed (PrefixReply identifier options)) }
    ensures fits { OnOk result ((identifier < 2 ^ 16) × FitsSet options) }
{
    out.extend(&[147, 0, 0, 0])?;
    out.extend(&u16_bytes(identifier))?;
    out.extend(&[0; 2])?;
    put_options(out, options)
}
