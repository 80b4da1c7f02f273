//! The steps that show: each leaves one answer.

ghost use Rattle.std.specs.Prelude.{◌≡◌, ℕ, ◌∷◌, [], option_map};
ghost use Rattle.mip_nonce.specs.Window.{index_of};
ghost use Rattle.mip_rules_correspondent.specs.Steps.{answer_of, Sends, Accepts, Denies, Drops, HandsUp, Idles};
ghost use Rattle.mip_rules_correspondent.specs.Transitions.{noted};
ghost use Rattle.mip_correspondent.specs.Showing.{Goes, Keeps};

use crate::accepted_binding::AcceptedBinding;
use mip_entries::{Answer, Answers, Entry};
use mip_reception::{denied, dropped};
use mip_tokens::Witness;
use mip_words::{Address, Bytes, MYSELF, Memory, Why};
use std::alloc::Global;

/// The index by which a nonce is named.
pub fn index_of(number: u64) -> u16
    ensures { result ≡ index_of number }
{
    (number % 65536) as u16
}

fn careof_index(number: Option<u64>) -> Option<u16>
    ensures { result ≡ option_map index_of number }
{
    match number {
        Some(number) => Some(index_of(number)),
        None => None,
    }
}

/// The correspondent sends a packet, unshielded.
pub fn send(answers: &mut Answers, packet: Bytes) -> Result<(), Memory>
    ensures { (now : ℕ) → Goes now result (noted (Sends packet)) answers.old answers.new }
{
    answers.push(Answer::Send {
        shield: None,
        packet,
    })?;
    Ok(())
}

/// The correspondent drops a packet.
pub fn drop_packet(answers: &mut Answers, number: u64, why: Why) -> Result<(), Memory>
    ensures { (now : ℕ) → Goes now result (noted (Drops number why)) answers.old answers.new }
{
    answers.push(dropped(number, why))?;
    Ok(())
}

/// The correspondent denies the update in a packet.
pub fn note_denial(answers: &mut Answers, number: u64, status: u8) -> Result<(), Memory>
    ensures { (now : ℕ) → Goes now result (noted (Denies number status)) answers.old answers.new }
{
    answers.push(denied(number, status))?;
    Ok(())
}

/// The entry of an acceptance.
fn accepted_entry(number: u64, kept: &AcceptedBinding) -> Entry
    ensures { Answer.Note result ∷ [] ≡ answer_of (Accepts number kept.now.home kept.now.number kept.now.accepted) }
{
    let accepted = kept.accepted;
    Entry::Accepted {
        node: MYSELF,
        number,
        home: kept.home,
        binding: kept.number,
        careof: accepted.careof,
        sequence: accepted.sequence,
        end: accepted.end,
        home_index: index_of(accepted.home_nonce),
        careof_index: careof_index(accepted.careof_nonce),
    }
}

/// The correspondent accepts the update in a packet: its row will stand in the cache.
pub fn note_acceptance(
    answers: &mut Answers,
    number: u64,
    kept: &AcceptedBinding,
) -> Result<(), Memory>
    ensures { (now : ℕ) → Keeps now kept.now result (noted (Accepts number kept.now.home kept.now.number kept.now.accepted)) answers.old answers.new }
{
    answers.push(Answer::Note(accepted_entry(number, kept)))?;
    Ok(())
}

/// The answers keep what the check of an accepted update found, for its mark. Nothing that a contract sees changes.
pub fn keep_witness(
    alloc: Global,
    answers: &mut Answers,
    witness: Option<Witness>,
) -> Result<(), Memory>
    ensures { answers.new ≡ answers.old }
{
    if let Some(witness) = witness {
        answers.keep_witness(Some(Box::new(alloc, witness)?));
    }
    Ok(())
}

/// The correspondent hands up data.
pub fn hand_up(
    alloc: Global,
    answers: &mut Answers,
    number: u64,
    source: Address,
    destination: Address,
    proto: u8,
    payload: &[u8],
) -> Result<(), Memory>
    ensures { (now : ℕ) → Goes now result (noted (HandsUp number source destination proto payload.now)) answers.old answers.new }
{
    let payload = Bytes::copy(alloc, payload)?;
    answers.push(Answer::Note(Entry::Up {
        node: MYSELF,
        number,
        source,
        destination,
        proto,
        payload,
    }))?;
    Ok(())
}

/// The correspondent was asked for something that can't be.
pub fn idle(answers: &mut Answers) -> Result<(), Memory>
    ensures { (now : ℕ) → Goes now result (noted Idles) answers.old answers.new }
{
    answers.push(Answer::Note(Entry::Idle))?;
    Ok(())
}
