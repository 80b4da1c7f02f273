//! What a home agent does, against runs of another implementation.

ghost use Rattle.std.specs.Prelude.{◌≡◌, ◌≤◌, ◌<◌, ◌^◌, IfOk};

mod agents;
mod registrations;
mod squat;

use super::hex::bytes;
use super::told::are_told;
use mip_entries::{Answers, UpdateSeen};
use mip_homeagent::{HomeAgent, HomeRow, HomeVerdict};
use mip_outside::{Claim, Place};
use mip_words::{Address, Moment, Shield};
use squat::Squat;
use std::alloc::Global;
use std::test::Fail;

const OWN: Address = Address(0x2001_0db8_0001_0000_0000_0000_0000_0001);

const SECOND: Address = Address(0x2001_0db8_0001_0000_0000_0000_0000_0003);

const HOME: Address = Address(0x2001_0db8_0001_0000_0000_0000_0000_0077);

const OTHER_HOME: Address = Address(0x2001_0db8_0001_0000_0000_0000_0000_0078);

const CAREOF: Address = Address(0x2001_0db8_0003_0000_0000_0000_0000_0077);

/// A call of an agent, and what it does about it.
#[derive(Clone, Copy)]
struct Row {
    at: u64,
    call: Call,
    /// The agent's answers, a line each.
    told: &'static [&'static str],
}

/// Packets are in hexadecimal digits.
#[derive(Clone, Copy)]
enum Call {
    Take {
        number: u64,
        /// The home under whose shield it came.
        from: Option<Address>,
        packet: &'static [u8],
    },
    Tick,
    Plan {
        valid: u32,
        preferred: u32,
    },
    Hear {
        agent: Address,
        preference: u16,
        life: u16,
    },
}

/// What the agent does about a call.
#[tactic(auto, using(crate::proofs::Rooms::room_everywhere))]
fn answer(
    alloc: Global,
    agent: &mut HomeAgent,
    place: &mut Squat,
    now: Moment,
    call: &Call,
) -> Result<Answers, Fail>
    requires later { agent.old.known.last ≤ now.0 }
    requires early { now.0 < 2 ^ 62 }
    ensures { IfOk result (λ _. agent.new.known.last ≡ now.0) }
{
    match call {
        Call::Take {
            number,
            from,
            packet,
        } => {
            let shield = from.map(|home| Shield {
                from: home,
                to: OWN,
            });
            let packet = bytes(alloc, packet)?;
            let answers = agent.take(alloc, place, now, *number, shield, packet.as_slice())?;
            Ok(answers)
        }
        Call::Tick => Ok(agent.tick(alloc, place, now)?),
        Call::Plan { valid, preferred } => Ok(agent.plan(alloc, now, *valid, *preferred)?),
        Call::Hear {
            agent: other,
            preference,
            life,
        } => {
            agent.heard(now, *other, *preference, *life)?;
            Ok(Answers::new(alloc)?)
        }
    }
}

/// The place of the first row whose answers are others.
fn first_other(
    alloc: Global,
    agent: &mut HomeAgent,
    place: &mut Squat,
    rows: &[Row],
) -> Result<Option<usize>, Fail>
    requires { agent.old.known.last ≡ 0 }
{
    let mut last = 0;
    for (at, row) in rows.iter().enumerate() {
        if row.at < last || 1 << 62 <= row.at {
            return Err("a moment falls".into());
        }
        last = row.at;
        let answers = answer(alloc, agent, place, Moment(last), &row.call)?;
        if !are_told(alloc, &answers, row.told)? {
            return Ok(Some(at));
        }
    }
    Ok(None)
}

/// The first home agent of the runs, with the homes that it serves.
fn agent(alloc: Global) -> Result<HomeAgent, Fail>
    ensures { IfOk result (λ a. a.known.last ≡ 0) }
{
    Ok(HomeAgent::new(alloc, OWN, 10, 1_800, 16, &[HOME, OTHER_HOME])?)
}

/// The place of the first row of a run where a new agent gives other answers.
fn first_other_of_new(alloc: Global, rows: &[Row]) -> Result<Option<usize>, Fail> {
    let mut agent = agent(alloc)?;
    first_other(alloc, &mut agent, &mut Squat(None), rows)
}

/// The verdict on the update of a first registration.
fn judged(alloc: Global) -> Result<HomeVerdict, Fail> {
    let agent = agent(alloc)?;
    let shield = Some(Shield {
        from: HOME,
        to: OWN,
    });
    let update = UpdateSeen {
        source: CAREOF,
        home: Some(HOME),
        message: registrations::MESSAGE,
    };
    Ok(agent.judge_home(Moment(0), shield, Claim::Held, &update))
}

/// When an agent has work due, before and after a registration; and what it shows of it, before and at its end.
fn registered(alloc: Global) -> Result<Option<Shown>, Fail> {
    let mut agent = agent(alloc)?;
    let before = agent.due();
    let rows = [registrations::REGISTERED];
    let other = first_other(alloc, &mut agent, &mut Squat(None), &rows)?;
    if other.is_some() {
        return Ok(None);
    }
    Ok(Some(Shown {
        before,
        due: agent.due(),
        row: agent.row(Moment(0), 0),
        ended: agent.row(Moment(3_600_000), 0),
    }))
}

#[derive(Clone, Copy, Debug, PartialEq, Eq)]
struct Shown {
    before: Option<Moment>,
    due: Option<Moment>,
    row: Option<HomeRow>,
    ended: Option<HomeRow>,
}

#[test]
fn calls_are_answered_as_in_a_run(rt: HostRuntime) -> Result<(), Fail> {
    let alloc = rt.alloc();
    assert_eq!(rt; first_other_of_new(alloc, &registrations::HANDOVER)?, None);
    assert_eq!(rt; first_other_of_new(alloc, &agents::SECOND_AGENT)?, None);
    assert_eq!(rt; first_other_of_new(alloc, &agents::PLAN)?, None);
    Ok(())
}

#[test]
fn a_first_registration_is_accepted(rt: HostRuntime) -> Result<(), Fail> {
    let accepted = HomeVerdict::Accept {
        home: HOME,
        careof: CAREOF,
        sequence: 1,
        granted: 900,
    };
    assert_eq!(rt; judged(rt.alloc())? == accepted, true);
    Ok(())
}

#[test]
fn a_registration_ends(rt: HostRuntime) -> Result<(), Fail> {
    let row = HomeRow {
        home: HOME,
        careof: CAREOF,
        sequence: 1,
        end: Moment(3_600_000),
    };
    let shown = Shown {
        before: None,
        due: Some(Moment(3_600_000)),
        row: Some(row),
        ended: None,
    };
    assert_eq!(rt; registered(rt.alloc())? == Some(shown), true);
    Ok(())
}
