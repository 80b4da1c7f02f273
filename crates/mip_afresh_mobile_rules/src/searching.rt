//! The discovery of home agents (RFC 6275 section 11.4.1).

ghost use Rattle.std.specs.Prelude.{◌≡◌, ◌*◌, ◌^◌, IfOk, OnOk, option_map, Some};
ghost use Rattle.mip_words.specs.Constants.{initial_dhaad_timeout};
ghost use Rattle.mip_discovery.specs.Retries.{retried};
ghost use Rattle.mip_rules_mobile.specs.declared.attachment.Attachment.TheVariants as places;
ghost use Rattle.mip_rules_mobile.specs.TimerQuestions.{later};
ghost use Rattle.mip_rules_mobile.specs.HomeRules.{seeks, seeks_again_from, seeks_again_at, seeks_again};
ghost use Rattle.mip_afresh_mobile_state.specs.Trials.{discovery_seen};
ghost use Rattle.mip_afresh_mobile_state.specs.Turns.{Goes};

use crate::packets::write_discovery;
use mip_afresh_mobile_state::{Discovery, Turn};
use mip_bulist::{HomeTimer, Work};
use mip_rules_mobile::Attachment;
use mip_words::constants::{DHAAD_RETRIES, INITIAL_DHAAD_TIMEOUT};
use mip_words::{Address, Memory, Moment};
use std::alloc::Global;

/// So many milliseconds later. A moment past the last one is answered as if memory had run out.
pub(crate) fn later(at: Moment, ms: u64) -> Result<Moment, Memory>
    ensures { IfOk result (λ m. m ≡ later at.0 ms) }
{
    match at.0.checked_add(ms) {
        Some(sum) => Ok(Moment(sum)),
        None => Err(Memory),
    }
}

/// A discovery begins: a request goes to all agents of the home link.
pub(crate) fn seek(alloc: Global, turn: &mut Turn, careof: Address) -> Result<(), Memory>
    ensures { Goes result (seeks careof) turn.old turn.new }
{
    let home = turn.mobile.home();
    let identifier = turn.mobile.discoveries();
    let request = write_discovery(alloc, home, careof, identifier)?;
    turn.seek()?;
    turn.send_packet(None, request)?;
    turn.wait(Work::Home(HomeTimer::Discover), INITIAL_DHAAD_TIMEOUT)
}

/// How many milliseconds a request waits that was sent again so often: twice as long each time. One sent again more often than a
/// discovery does is answered as if memory had run out.
fn request_wait(retries: u8) -> Result<u64, Memory>
    ensures { IfOk result (λ w. w ≡ initial_dhaad_timeout * 2 ^ retries) }
{
    match retries {
        0 => Ok(INITIAL_DHAAD_TIMEOUT),
        1 => Ok(2 * INITIAL_DHAAD_TIMEOUT),
        2 => Ok(4 * INITIAL_DHAAD_TIMEOUT),
        3 => Ok(8 * INITIAL_DHAAD_TIMEOUT),
        4 => Ok(16 * INITIAL_DHAAD_TIMEOUT),
        _ => Err(Memory),
    }
}

/// The next retry of a discovery; there are four.
fn retried(now: Moment, discovery: Discovery) -> Result<Option<Discovery>, Memory>
    ensures { IfOk result (λ d. option_map discovery_seen d ≡ retried now.0 (discovery_seen discovery)) }
{
    if discovery.retries == DHAAD_RETRIES {
        return Ok(None);
    }
    let Some(retries) = discovery.retries.checked_add(1) else {
        return Err(Memory);
    };
    let wait = request_wait(retries)?;
    let due = later(now, wait)?;
    Ok(Some(Discovery {
        identifier: discovery.identifier,
        retries,
        due,
    }))
}

/// The request again.
fn ask_again(
    alloc: Global,
    turn: &mut Turn,
    careof: Address,
    discovery: Discovery,
    identifier: u16,
) -> Result<(), Memory>
    ensures { Goes result (seeks_again_from careof (Some (discovery_seen discovery)) identifier) turn.old turn.new }
{
    let home = turn.mobile.home();
    let wait = request_wait(discovery.retries)?;
    let request = write_discovery(alloc, home, careof, identifier)?;
    turn.seek_again()?;
    turn.send_packet(None, request)?;
    turn.wait(Work::Home(HomeTimer::Discover), wait)
}

/// The request again, or the end of the discovery after the last time.
fn seek_again_from(
    alloc: Global,
    turn: &mut Turn,
    careof: Address,
    discovery: Option<Discovery>,
    identifier: u16,
) -> Result<(), Memory>
    ensures { Goes result (seeks_again_from careof (option_map discovery_seen discovery) identifier) turn.old turn.new }
{
    match discovery {
        None => turn.give_up(),
        Some(discovery) => ask_again(alloc, turn, careof, discovery, identifier),
    }
}

/// A discovery goes on away.
fn seek_again_away(
    alloc: Global,
    turn: &mut Turn,
    careof: Address,
    discovery: Option<Discovery>,
) -> Result<(), Memory>
    ensures { Goes result (seeks_again_at (places.Away careof) (option_map discovery_seen discovery)) turn.old turn.new }
{
    match discovery {
        None => Ok(()),
        Some(discovery) => {
            let again = retried(turn.now, discovery)?;
            seek_again_from(alloc, turn, careof, again, discovery.identifier)
        }
    }
}

fn seek_again_at(
    alloc: Global,
    turn: &mut Turn,
    standing: Attachment,
    discovery: Option<Discovery>,
) -> Result<(), Memory>
    ensures { Goes result (seeks_again_at standing (option_map discovery_seen discovery)) turn.old turn.new }
{
    match standing {
        Attachment::Detached => Ok(()),
        Attachment::AtHome => Ok(()),
        Attachment::Away { careof } => seek_again_away(alloc, turn, careof, discovery),
    }
}

/// A discovery goes on.
pub(crate) fn seek_again(alloc: Global, turn: &mut Turn) -> Result<(), Memory>
    ensures { Goes result seeks_again turn.old turn.new }
{
    let standing = turn.mobile.standing();
    let discovery = turn.mobile.discovery();
    seek_again_at(alloc, turn, standing, discovery)
}
