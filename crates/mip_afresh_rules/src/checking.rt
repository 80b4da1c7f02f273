//! What a correspondent checks of a packet first (RFC 6275 sections 6.1.3, 6.4, 9.2, 9.3.1 and 9.3.3).

ghost use Rattle.std.specs.Prelude.{◌≡◌, ◌==◌, IfOk, option_map};
ghost use Rattle.mip_words.specs.Steps.{Gives};
ghost use Rattle.mip_ipv6.specs.Packet.{packet as tree};
ghost use Rattle.mip_mobhdr.specs.Said.{said};
ghost use Rattle.mip_packets.specs.Says.{message_in};
ghost use Rattle.mip_packets.specs.Updates.{IsReadUpdate};
ghost use Rattle.mip_reception.specs.Checks.{silent, fault_reply, message_at, is_probe, is_update, with_home, checked};

use crate::received::Received;
use crate::wording::message_why;
use mip_mobhdr::{Fault, Message, read_message};
use mip_reception::{AddressMatch, Refusal, Reply};
use mip_words::protocol::MOBILITY_HEADER;
use mip_words::{Address, Why};

/// Nothing goes back.
fn silent(why: Why) -> Refusal
    ensures { result ≡ silent why }
{
    let reply = Reply::Nothing;
    Refusal { why, reply }
}

/// What goes back for a message that cannot be read: it begins where the body of the packet does.
fn fault_reply(received: &Received<'_>, fault: Fault) -> Reply
    ensures { result ≡ fault_reply received.now.packet.place received.now.packet.head.home fault }
{
    let place = received.packet.place as u32;
    match fault {
        Fault::Unknown(_) => Reply::BindingError {
            status: 2,
            home: received.packet.head.home.unwrap_or(Address(0)),
        },
        Fault::Proto => Reply::ParameterProblem { pointer: place },
        Fault::HeaderLen => Reply::ParameterProblem { pointer: place + 1 },
        Fault::Size | Fault::Checksum | Fault::Option { .. } => Reply::Nothing,
    }
}

/// The mobility message of a packet, none in a packet of another kind.
#[tactic(auto, unfolding(mip_reception::specs::Checks::message_at), using(mip_packets::proofs::Updates::read_update))]
fn message_at<'a>(received: &Received<'a>) -> Result<Option<Message<'a>>, Refusal>
    ensures exact { Gives (option_map said) result (message_at received.now.packet.place (tree received.now.packet)) }
    ensures inside { IfOk result (λ m. message_in (tree received.now.packet) ≡ option_map said m) }
    ensures update { IfOk result (λ m. IsReadUpdate (option_map said m) received.now.packet.body.now) }
{
    let head = &received.packet.head;
    if head.proto != MOBILITY_HEADER {
        return Ok(None);
    }
    match read_message(head.sender(), head.receiver(), received.packet.body) {
        Ok(message) => Ok(Some(message)),
        Err(fault) => {
            let why = message_why(fault);
            let reply = fault_reply(received, fault);
            Err(Refusal { why, reply })
        }
    }
}

/// A test init.
fn is_probe(message: &Option<Message<'_>>) -> bool
    ensures { result ≡ is_probe (option_map said message.now) }
{
    match message {
        Some(Message::HomeInit { .. }) => true,
        Some(Message::CareofInit { .. }) => true,
        _ => false,
    }
}

fn is_update(message: &Option<Message<'_>>) -> bool
    ensures { result ≡ is_update (option_map said message.now) }
{
    match message {
        Some(Message::Update { .. }) => true,
        _ => false,
    }
}

/// A Home Address option stands never with a test init; else with an update, or where a binding from this home to the source stands.
fn allow_home(
    holds: bool,
    home: Option<Address>,
    message: &Option<Message<'_>>,
) -> Result<(), Refusal>
    ensures { Gives (λ _. option_map said message.now) result (with_home holds home (option_map said message.now)) }
{
    match home {
        None => Ok(()),
        Some(_) if is_probe(message) => Err(silent(Why::Probe)),
        Some(_) if is_update(message) || holds => Ok(()),
        Some(home) => Err(Refusal {
            why: Why::HomeOption,
            reply: Reply::BindingError { status: 1, home },
        }),
    }
}

/// The checks in their order: the destination, the routing header, the message, the Home Address option. What passes is the
/// message, where the packet has one.
#[tactic(auto, unfolding(mip_reception::specs::Checks::checked))]
pub fn check<'a>(
    received: &Received<'a>,
    standing: AddressMatch,
) -> Result<Option<Message<'a>>, Refusal>
    ensures exact { Gives (option_map said) result (checked standing received.now.packet.place (tree received.now.packet)) }
    ensures inside { IfOk result (λ m. message_in (tree received.now.packet) ≡ option_map said m) }
    ensures update { IfOk result (λ m. IsReadUpdate (option_map said m) received.now.packet.body.now) }
{
    if !standing.is_mine {
        return Err(silent(Why::Address));
    }
    let head = &received.packet.head;
    if head.route.is_some() && !standing.takes_route {
        return Err(silent(Why::Route));
    }
    let message = message_at(received)?;
    allow_home(standing.holds, head.home, &message)?;
    Ok(message)
}
