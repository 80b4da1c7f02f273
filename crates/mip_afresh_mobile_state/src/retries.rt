//! A discovery of home agents and its retries (RFC 6275 section 11.4.1).

ghost use Rattle.std.specs.Prelude.{◌≡◌, ◌*◌, ◌^◌, option_map, IfOk};
ghost use Rattle.mip_words.specs.Constants.{initial_dhaad_timeout};
ghost use Rattle.mip_discovery.specs.Retries.{due_after, started, retried};
ghost use Rattle.mip_afresh_mobile_state.specs.Trials.{discovery_seen};

use crate::discovery::Discovery;
use mip_words::constants::{DHAAD_RETRIES, INITIAL_DHAAD_TIMEOUT};
use mip_words::{Memory, Moment};

/// How many milliseconds the next request waits after so many retries: each waits twice as long as the one before it. More
/// retries than there are are answered as if memory had run out.
fn wait_after(retries: u8) -> Result<u64, Memory>
    ensures { IfOk result (λ ms. ms ≡ initial_dhaad_timeout * 2 ^ retries) }
{
    match retries {
        0 => Ok(INITIAL_DHAAD_TIMEOUT),
        1 => Ok(INITIAL_DHAAD_TIMEOUT * 2),
        2 => Ok(INITIAL_DHAAD_TIMEOUT * 4),
        3 => Ok(INITIAL_DHAAD_TIMEOUT * 8),
        4 => Ok(INITIAL_DHAAD_TIMEOUT * 16),
        _ => Err(Memory),
    }
}

/// When the next request is due after so many retries. A moment that does not fit into 64 bits is answered as if memory had run out.
fn due_after(now: Moment, retries: u8) -> Result<Moment, Memory>
    ensures { IfOk result (λ due. due.0 ≡ due_after now.0 retries) }
{
    match now.0.checked_add(wait_after(retries)?) {
        Some(due) => Ok(Moment(due)),
        None => Err(Memory),
    }
}

/// A discovery whose first request is sent now.
pub fn started(now: Moment, identifier: u16) -> Result<Discovery, Memory>
    ensures { IfOk result (λ d. discovery_seen d ≡ started now.0 identifier) }
{
    let due = due_after(now, 0)?;
    Ok(Discovery {
        identifier,
        retries: 0,
        due,
    })
}

/// A discovery whose request is sent again now; none after the last retry.
pub fn retried(now: Moment, discovery: &Discovery) -> Result<Option<Discovery>, Memory>
    ensures { IfOk result (λ d. option_map discovery_seen d ≡ retried now.0 (discovery_seen discovery.now)) }
{
    if discovery.retries == DHAAD_RETRIES {
        return Ok(None);
    }
    let retries = match discovery.retries.checked_add(1) {
        Some(retries) => retries,
        None => return Err(Memory),
    };
    let due = due_after(now, retries)?;
    Ok(Some(Discovery {
        identifier: discovery.identifier,
        retries,
        due,
    }))
}
