//! The options of a message, as they are written.

ghost use Rattle.std.specs.Prelude.{◌≡◌, ◌++◌, ◌<◌, ◌^◌, OnOk, IfSome};
ghost use Rattle.mip_icmp.specs.Spelling.{prefix_bytes, interval_bytes, agent_bytes, set_bytes};
ghost use Rattle.mip_icmp.specs.SpellingLaws.{FitsPrefix, FitsAgent, FitsSet};

use crate::agent_info::AgentInfo;
use crate::options::IcmpSet;
use crate::prefix_info::PrefixInfo;
use mip_words::{Bytes, Memory, u16_bytes, u32_bytes};

/// Appends the option 3, where it is present.
fn put_prefix(out: &mut Bytes, prefix: Option<PrefixInfo>) -> Result<(), Memory>
    ensures bytes { OnOk result (out.new ≡ out.old ++ prefix_bytes prefix) }
    ensures fits { IfSome prefix FitsPrefix }
{
    let Some(info) = prefix else {
        return Ok(());
    };
    out.extend(&[3, 4, info.length, info.flags])?;
    out.extend(&u32_bytes(info.valid))?;
    out.extend(&u32_bytes(info.preferred))?;
    out.extend(&[0; 4])?;
    out.extend(&info.address.bytes())
}

/// Appends the option 7, where it is present.
fn put_interval(out: &mut Bytes, interval: Option<u32>) -> Result<(), Memory>
    ensures bytes { OnOk result (out.new ≡ out.old ++ interval_bytes interval) }
    ensures fits { IfSome interval (λ n. n < 2 ^ 32) }
{
    let Some(interval) = interval else {
        return Ok(());
    };
    out.extend(&[7, 1, 0, 0])?;
    out.extend(&u32_bytes(interval))
}

/// Appends the option 8, where it is present.
fn put_agent(out: &mut Bytes, agent: Option<AgentInfo>) -> Result<(), Memory>
    ensures bytes { OnOk result (out.new ≡ out.old ++ agent_bytes agent) }
    ensures fits { IfSome agent FitsAgent }
{
    let Some(info) = agent else {
        return Ok(());
    };
    out.extend(&[8, 1, 0, 0])?;
    out.extend(&u16_bytes(info.preference))?;
    out.extend(&u16_bytes(info.life))
}

/// Appends the options, in the order 3, 7, 8.
#[tactic(auto, unfolding(crate::specs::Spelling::set_bytes))]
pub(crate) fn put_options(out: &mut Bytes, options: IcmpSet) -> Result<(), Memory>
    ensures bytes { OnOk result (out.new ≡ out.old ++ set_bytes options) }
    ensures fits { OnOk result (FitsSet options) }
{
    put_prefix(out, options.prefix)?;
    put_interval(out, options.interval)?;
    put_agent(out, options.agent)
}
