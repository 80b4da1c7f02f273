//! The options of a message, one after another.

ghost use Rattle.std.specs.Prelude.{◌≡◌, ◌≤◌, ◌<◌, length, drop, slice_index, IfOk};
ghost use Rattle.mip_words.specs.Steps.{Gives};
ghost use Rattle.mip_icmp.specs.Options.{has_units, set_of};
ghost use Rattle.mip_icmp.specs.Reading.{noted, option_at, area_of};

use crate::agent_info::AgentInfo;
use crate::fault::IcmpFault;
use crate::options::{IcmpOptions, IcmpSet};
use crate::prefix_info::PrefixInfo;
use mip_words::u32_at;

/// Whether an option of this type may have this length, in units of 8 bytes.
fn fits(kind: u8, units: u8) -> bool
    ensures { result ≡ has_units kind units }
{
    match kind {
        3 => units == 4,
        7 | 8 => units == 1,
        _ => units != 0,
    }
}

/// The options seen so far, with the option that begins these bytes.
fn with_option(seen: IcmpSet, option: &[u8]) -> IcmpSet
    requires some { 8 ≤ length option.now }
    requires whole { slice_index option.now 0 ≡ 3 → 32 ≤ length option.now }
    ensures { result ≡ noted seen option.now }
{
    match option[0] {
        3 => IcmpSet {
            prefix: Some(PrefixInfo::preferred_of(seen.prefix, PrefixInfo::at(option))),
            ..seen
        },
        7 => IcmpSet {
            interval: seen.interval.or(Some(u32_at(option, 4))),
            ..seen
        },
        8 => IcmpSet {
            agent: seen.agent.or(Some(AgentInfo::at(option))),
            ..seen
        },
        _ => seen,
    }
}

/// The options seen so far, with the option that begins these bytes, and the bytes that it takes.
#[tactic(auto, unfolding(crate::specs::Walk::option_by))]
fn option_of(place: usize, seen: IcmpSet, bytes: &[u8]) -> Result<(IcmpSet, usize), IcmpFault>
    ensures exact { Gives (λ x. x) result (option_at place seen bytes.now) }
    ensures some { IfOk result (λ x. 0 < x.1) }
    ensures inside { IfOk result (λ x. x.1 ≤ length bytes.now) }
{
    if bytes.len() < 2 {
        return Err(IcmpFault::Option { place });
    }
    let size = 8 * usize::from(bytes[1]);
    if bytes.len() < size || !fits(bytes[0], bytes[1]) {
        return Err(IcmpFault::Option { place });
    }
    Ok((with_option(seen, bytes), size))
}

/// The options from a place of a message to its end.
pub(crate) fn read_area(message: &[u8], start: usize) -> Result<IcmpOptions<'_>, IcmpFault>
    requires { start ≤ length message.now }
    ensures exact { Gives set_of result (area_of start message.now) }
    ensures span { IfOk result (λ o. o.span.now ≡ drop start message.now) }
{
    let (_, span) = message.split_at(start);
    let mut seen = IcmpSet {
        prefix: None,
        interval: None,
        agent: None,
    };
    let mut rest = span;
    while !rest.is_empty() {
        let place = message.len() - rest.len();
        let (with_this, size) = option_of(place, seen, rest)?;
        let (_, behind) = rest.split_at(size);
        seen = with_this;
        rest = behind;
    }
    let IcmpSet {
        prefix,
        interval,
        agent,
    } = seen;
    Ok(IcmpOptions {
        prefix,
        interval,
        agent,
        span,
    })
}
