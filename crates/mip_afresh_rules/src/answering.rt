//! The steps that show: each leaves one answer.

ghost use Rattle.std.specs.Prelude.{◌≡◌, ℕ, ◌∷◌, [], option_map};
ghost use Rattle.mip_nonce.specs.Window.{index_of};
ghost use Rattle.mip_bcache.specs.declared.accepted.Accepted.{Accepted};
ghost use Rattle.mip_rules_correspondent.specs.Steps.{answer_of, Sends, Accepts, Denies, Drops, HandsUp, Idles};
ghost use Rattle.mip_rules_correspondent.specs.Transitions.{noted};
ghost use Rattle.mip_afresh_rules.specs.Showing.{Goes};

use mip_bcache::Accepted;
use mip_entries::{Answer, Answers, Entry};
use mip_words::{Address, Bytes, MYSELF, Memory, Why};
use std::alloc::Global;

/// The index by which a nonce is named (RFC 6275 section 5.2.5).
pub fn index_of(number: u64) -> u16
    ensures { result ≡ index_of number }
{
    (number % 65536) as u16
}

fn index_if_any(number: Option<u64>) -> Option<u16>
    ensures { result ≡ option_map index_of number }
{
    match number {
        Some(number) => Some(index_of(number)),
        None => None,
    }
}

/// A packet is sent, unshielded.
pub fn send_packet(answers: &mut Answers, packet: Bytes) -> Result<(), Memory>
    ensures { (now : ℕ) → Goes now result (noted (Sends packet)) answers.old answers.new }
{
    let shield = None;
    answers.push(Answer::Send { shield, packet })?;
    Ok(())
}

/// A packet is dropped.
pub fn drop_packet(answers: &mut Answers, number: u64, why: Why) -> Result<(), Memory>
    ensures { (now : ℕ) → Goes now result (noted (Drops number why)) answers.old answers.new }
{
    let node = MYSELF;
    answers.push(Answer::Note(Entry::Dropped { node, number, why }))?;
    Ok(())
}

/// The update in a packet is denied.
pub fn note_denial(answers: &mut Answers, number: u64, status: u8) -> Result<(), Memory>
    ensures { (now : ℕ) → Goes now result (noted (Denies number status)) answers.old answers.new }
{
    let node = MYSELF;
    answers.push(Answer::Note(Entry::Denied {
        node,
        number,
        status,
    }))?;
    Ok(())
}

/// The entry of an acceptance.
fn acceptance(number: u64, home: Address, binding: u8, accepted: Accepted) -> Entry
    ensures { Answer.Note result ∷ [] ≡ answer_of (Accepts number home binding accepted) }
{
    Entry::Accepted {
        node: MYSELF,
        number,
        home,
        binding,
        careof: accepted.careof,
        sequence: accepted.sequence,
        end: accepted.end,
        home_index: index_of(accepted.home_nonce),
        careof_index: index_if_any(accepted.careof_nonce),
    }
}

/// The update in a packet is accepted.
pub fn note_acceptance(
    answers: &mut Answers,
    number: u64,
    home: Address,
    binding: u8,
    accepted: Accepted,
) -> Result<(), Memory>
    ensures { (now : ℕ) → Goes now result (noted (Accepts number home binding accepted)) answers.old answers.new }
{
    let entry = acceptance(number, home, binding, accepted);
    answers.push(Answer::Note(entry))?;
    Ok(())
}

/// Data is handed up, from one address to another.
pub fn hand_up(
    alloc: Global,
    answers: &mut Answers,
    number: u64,
    source: Address,
    destination: Address,
    proto: u8,
    payload: &[u8],
) -> Result<(), Memory>
    ensures { (now : ℕ) → Goes now result (noted (HandsUp number source destination proto payload.now)) answers.old answers.new }
{
    let payload = Bytes::copy(alloc, payload)?;
    answers.push(Answer::Note(Entry::Up {
        node: MYSELF,
        number,
        source,
        destination,
        proto,
        payload,
    }))?;
    Ok(())
}

/// What was asked for can't be.
pub fn idle(answers: &mut Answers) -> Result<(), Memory>
    ensures { (now : ℕ) → Goes now result (noted Idles) answers.old answers.new }
{
    answers.push(Answer::Note(Entry::Idle))?;
    Ok(())
}
