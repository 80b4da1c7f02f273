//! The steps that show: each leaves one answer.

ghost use Rattle.std.specs.Prelude.{◌≡◌, ◌++◌, OnOk, IfOk};
ghost use Rattle.mip_rules_agent.specs.Steps.{answer_of, Sends, Registers, Claims, Releases, Denies, Drops};
ghost use Rattle.mip_rules_agent.specs.Transitions.{noted};
ghost use Rattle.mip_homeagent.specs.Showing.{Goes};
ghost use Rattle.mip_homeagent.specs.Endings.{answers_released};

use mip_entries::{Answer, Answers, Entry};
use mip_reception::{denied, dropped};
use mip_rules_agent::{Ending, HomeBinding};
use mip_words::{Address, Bytes, HERE, MYSELF, Memory, Shield, Why};
use std::alloc::Global;

/// The agent sends a packet.
pub fn send(answers: &mut Answers, shield: Option<Shield>, packet: Bytes) -> Result<(), Memory>
    ensures { Goes result (noted (Sends shield packet)) answers.old answers.new }
{
    answers.push(Answer::Send { shield, packet })?;
    Ok(())
}

/// The agent drops a packet.
pub fn drop_packet(answers: &mut Answers, number: u64, why: Why) -> Result<(), Memory>
    ensures { Goes result (noted (Drops number why)) answers.old answers.new }
{
    answers.push(dropped(number, why))?;
    Ok(())
}

/// The agent denies the update in a packet.
pub fn note_denial(answers: &mut Answers, number: u64, status: u8) -> Result<(), Memory>
    ensures { Goes result (noted (Denies number status)) answers.old answers.new }
{
    answers.push(denied(number, status))?;
    Ok(())
}

/// The agent accepts a registration, or a deregistration.
pub fn note_registration(
    answers: &mut Answers,
    home: Address,
    binding: &HomeBinding,
) -> Result<(), Memory>
    ensures { OnOk result (answers.new ≡ answers.old ++ answer_of (Registers 0 home binding.now)) }
{
    answers.push(Answer::Note(Entry::Home {
        node: MYSELF,
        home,
        careof: binding.careof,
        sequence: binding.sequence,
        end: binding.end,
    }))?;
    Ok(())
}

/// The agent has an address from here on.
pub fn note_claim(answers: &mut Answers, home: Address) -> Result<(), Memory>
    ensures { OnOk result (answers.new ≡ answers.old ++ answer_of (Claims home)) }
{
    answers.push(Answer::Note(Entry::Claimed {
        who: 0,
        link: HERE,
        address: home,
    }))?;
    Ok(())
}

/// The agent gives an address up.
pub fn note_release(answers: &mut Answers, home: Address) -> Result<(), Memory>
    ensures { OnOk result (answers.new ≡ answers.old ++ answer_of (Releases home)) }
{
    answers.push(Answer::Note(Entry::Released {
        who: 0,
        link: HERE,
        address: home,
    }))?;
    Ok(())
}

/// The home addresses that are given up at the end of their registrations.
pub fn note_ends(alloc: Global, ends: &[Ending]) -> Result<Answers, Memory>
    ensures { IfOk result (λ a. a ≡ answers_released ends.now) }
{
    let mut answers = Answers::new(alloc)?;
    for end in ends {
        note_release(&mut answers, end.home)?;
    }
    Ok(answers)
}
