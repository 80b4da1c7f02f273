//! The calls of a correspondent: a packet that it is handed, a refresh and data that it is asked for (RFC 6275 sections 9.2 to 9.5).

ghost use Rattle.std.specs.Prelude.{◌≡◌, ℕ, Option, IfOk, IsTrue};
ghost use Rattle.mip_words.specs.declared.shield.Shield.{Shield};
ghost use Rattle.mip_ipv6.specs.Packet.{packet as tree, is_plain};
ghost use Rattle.mip_ipv6.specs.Reading.{packet_of};
ghost use Rattle.mip_rules_correspondent.specs.declared.known.Known.{Known};
ghost use Rattle.mip_rules_correspondent.specs.Calls as asked_for;
ghost use Rattle.mip_rules_correspondent.specs.Steps.{answers_of};
ghost use Rattle.mip_rules_correspondent.specs.Questions.{held_of};
ghost use Rattle.mip_rules_correspondent.specs.Doing.{request_refresh, data_head, transition_of};
ghost use Rattle.mip_afresh_rules.specs.Keeping.{IsKept, IsKeptFor};
ghost use Rattle.mip_afresh_rules.specs.Showing.{Goes};

use crate::answering::{idle, send_packet};
use crate::early::Early;
use crate::kept::Kept;
use crate::part::answer_message;
use crate::passed::Passed;
use crate::payload::Payload;
use crate::receiving::receive;
use crate::routable::Routable;
use crate::who::Who;
use mip_entries::Answers;
use mip_ipv6::Head;
use mip_packets::{node_head, straight, write_data_packet, write_refresh};
use mip_rules_correspondent::Identity;
use mip_words::{Address, Memory};
use std::alloc::Global;

/// What a correspondent does about a packet that it is handed under a number, in order, where it keeps this of what the packet asks.
pub fn take(
    alloc: Global,
    me: &Identity,
    now: Early,
    number: u64,
    kept: Kept,
    packet: &[u8],
) -> Result<Answers, Memory>
    ensures { (k : Known) (shield : Option Shield) → IsKeptFor kept k.cache now.moment.0 (packet_of packet.now)
        → IfOk result (λ a. a ≡ answers_of (transition_of me.now k now.moment.0 (asked_for.Take number shield packet.now)).steps) }
{
    let mut answers = Answers::new(alloc)?;
    let who = Who {
        me,
        at: now,
        number,
        kept,
    };
    receive(alloc, &mut answers, &who, packet)?;
    Ok(answers)
}

/// What the correspondent part of a mobile does about a packet that has passed its node's checks, in order, where the part keeps this of
/// what the packet asks.
pub fn take_part(
    alloc: Global,
    me: &Identity,
    now: Early,
    number: u64,
    kept: Kept,
    passed: &Passed<'_>,
) -> Result<Answers, Memory>
    ensures { (k : Known) → IsKept kept k.cache now.moment.0 passed.now.packet.head.source passed.now.packet.head.home
        → IfOk result (λ a. a ≡ answers_of (transition_of me.now k now.moment.0 (asked_for.Part number (tree passed.now.packet))).steps) }
{
    let mut answers = Answers::new(alloc)?;
    let who = Who {
        me,
        at: now,
        number,
        kept,
    };
    answer_message(alloc, &mut answers, &who, passed)?;
    Ok(answers)
}

/// The request goes to the care-of address that is held for a home; nothing where none is held.
fn ask_refresh(
    alloc: Global,
    answers: &mut Answers,
    me: &Identity,
    home: Routable,
    held: Option<Address>,
) -> Result<(), Memory>
    ensures { (now : ℕ) → Goes now result (request_refresh me.now home.address held) answers.old answers.new }
{
    match held {
        None => idle(answers),
        Some(careof) => {
            let request = write_refresh(alloc, me.own, careof, home.address)?;
            send_packet(answers, request)
        }
    }
}

/// What a correspondent does about a refresh that it is asked for, where it holds this care-of address for the home: a Binding
/// Refresh Request goes there; `idle` where none is held.
pub fn refresh(
    alloc: Global,
    me: &Identity,
    home: Routable,
    held: Option<Address>,
) -> Result<Answers, Memory>
    ensures { (now : ℕ) (k : Known) → held ≡ held_of k now home.address
        → IfOk result (λ a. a ≡ answers_of (transition_of me.now k now (asked_for.Refresh home.address)).steps) }
{
    let mut answers = Answers::new(alloc)?;
    ask_refresh(alloc, &mut answers, me, home, held)?;
    Ok(answers)
}

/// The head of data: to the care-of address that is held for its destination, through the destination; straight where none is held.
fn data_head(own: Address, to: Routable, payload: &Payload<'_>, held: Option<Address>) -> Head
    ensures head { result ≡ data_head own to.address payload.now.proto held }
    ensures plain { IsTrue (is_plain result) }
{
    match held {
        Some(careof) => node_head(own, careof, Some(to.address), None, payload.proto),
        None => straight(own, to.address, payload.proto),
    }
}

/// What a correspondent does about data that it is asked to send, where it holds this care-of address for the destination.
pub fn send(
    alloc: Global,
    me: &Identity,
    to: Routable,
    payload: &Payload<'_>,
    held: Option<Address>,
) -> Result<Answers, Memory>
    ensures { (now : ℕ) (k : Known) → held ≡ held_of k now to.address
        → IfOk result (λ a. a ≡ answers_of (transition_of me.now k now (asked_for.Send to.address payload.now.proto payload.now.bytes.now)).steps) }
{
    let mut answers = Answers::new(alloc)?;
    let head = data_head(me.own, to, payload, held);
    let packet = write_data_packet(alloc, &head, payload.bytes)?;
    send_packet(&mut answers, packet)?;
    Ok(answers)
}
