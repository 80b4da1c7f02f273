//! What every node checks of a packet before its role looks at it (RFC 6275 sections 6.1.3, 6.4, 9.2, 9.3.1 and
//! 9.3.3).

ghost use Rattle.std.specs.Prelude.{◌≡◌, ◌<◌, ◌-◌, ◌^◌, ◌==◌, IfOk, option_map, is_some};
ghost use Rattle.mip_words.specs.Protocols.{mobility_header};
ghost use Rattle.mip_words.specs.Steps.{Gives};
ghost use Rattle.mip_ipv6.specs.Packet.{packet as tree};
ghost use Rattle.mip_mobhdr.specs.Said.{said};
ghost use Rattle.mip_packets.specs.Updates.{IsReadUpdate};
ghost use Rattle.mip_reception.specs.Checks.{silent, fault_reply, message_at, is_probe, is_update, with_home, checked};

use crate::address_match::AddressMatch;
use crate::refusal::Refusal;
use crate::reply::Reply;
use crate::wording::message_why;
use mip_ipv6::PacketRef;
use mip_mobhdr::{Fault, Message, read_message};
use mip_words::protocol::MOBILITY_HEADER;
use mip_words::{Address, Why};

fn silent(why: Why) -> Refusal
    ensures { result ≡ silent why }
{
    Refusal {
        why,
        reply: Reply::Nothing,
    }
}

/// What goes back for a message that cannot be read, which begins at a place of the packet (RFC 6275 section 9.2).
fn fault_reply(place: usize, home: Option<Address>, fault: Fault) -> Reply
    requires { place < 2 ^ 32 - 1 }
    ensures { result ≡ fault_reply place home fault }
{
    if let Fault::Unknown(_) = fault {
        return Reply::BindingError {
            status: 2,
            home: home.unwrap_or(Address(0)),
        };
    }
    match fault.pointer(place) {
        Some(pointer) => Reply::ParameterProblem {
            pointer: pointer as u32,
        },
        None => Reply::Nothing,
    }
}

/// The mobility message of a packet, none in a packet of another kind.
#[tactic(auto, unfolding(crate::specs::Checks::message_at), using(mip_packets::proofs::Updates::read_update))]
fn message_at<'a>(packet: &PacketRef<'a>) -> Result<Option<Message<'a>>, Refusal>
    requires { packet.now.place < 2 ^ 32 - 1 }
    ensures exact { Gives (option_map said) result (message_at packet.now.place (tree packet.now)) }
    ensures kind { IfOk result (λ m. is_some m ≡ (packet.now.head.proto == mobility_header)) }
    ensures update { IfOk result (λ m. IsReadUpdate (option_map said m) packet.now.body.now) }
{
    if packet.head.proto != MOBILITY_HEADER {
        return Ok(None);
    }
    match read_message(packet.head.sender(), packet.head.receiver(), packet.body) {
        Ok(message) => Ok(Some(message)),
        Err(fault) => Err(Refusal {
            why: message_why(fault),
            reply: fault_reply(packet.place, packet.head.home, fault),
        }),
    }
}

fn is_probe(message: &Option<Message<'_>>) -> bool
    ensures { result ≡ is_probe (option_map said message.now) }
{
    matches!(
        message,
        Some(Message::HomeInit { .. } | Message::CareofInit { .. })
    )
}

fn is_update(message: &Option<Message<'_>>) -> bool
    ensures { result ≡ is_update (option_map said message.now) }
{
    matches!(message, Some(Message::Update { .. }))
}

/// A Home Address option stands with an update, or where a binding from this home to the source stands; never with
/// a test init (RFC 6275 sections 6.1.3, 6.1.4 and 9.3.1).
fn allow_home(
    holds: bool,
    home: Option<Address>,
    message: &Option<Message<'_>>,
) -> Result<(), Refusal>
    ensures { Gives (λ _. option_map said message.now) result (with_home holds home (option_map said message.now)) }
{
    let Some(home) = home else {
        return Ok(());
    };
    if is_probe(message) {
        return Err(silent(Why::Probe));
    }
    if is_update(message) || holds {
        return Ok(());
    }
    Err(Refusal {
        why: Why::HomeOption,
        reply: Reply::BindingError { status: 1, home },
    })
}

/// The checks in their order: the destination, the routing header, the message, the Home Address option. What passes
/// is the message, where the packet has one.
#[tactic(auto, unfolding(crate::specs::Checks::checked))]
pub fn check<'a>(
    packet: &PacketRef<'a>,
    standing: AddressMatch,
) -> Result<Option<Message<'a>>, Refusal>
    requires { packet.now.place < 2 ^ 32 - 1 }
    ensures exact { Gives (option_map said) result (checked standing packet.now.place (tree packet.now)) }
    // There is a message exactly where the packet has a Mobility Header.
    ensures kind { IfOk result (λ m. is_some m ≡ (packet.now.head.proto == mobility_header)) }
    // An update is what its fields say, which has nothing to do with its checksum.
    ensures update { IfOk result (λ m. IsReadUpdate (option_map said m) packet.now.body.now) }
{
    if !standing.is_mine {
        return Err(silent(Why::Address));
    }
    if packet.head.route.is_some() && !standing.takes_route {
        return Err(silent(Why::Route));
    }
    let message = message_at(packet)?;
    allow_home(standing.holds, packet.head.home, &message)?;
    Ok(message)
}
