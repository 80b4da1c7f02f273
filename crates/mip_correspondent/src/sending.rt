//! Binding Refresh Requests, and data on the direct way (RFC 6275 sections 9.3.2 and 9.5.5).

ghost use Rattle.std.specs.Prelude.{◌≡◌, ◌≤◌, ℕ, Some, None, IfSome, IsTrue, IsFalse, length};
ghost use Rattle.mip_ipv6.specs.Packet.{is_plain, names_no_body};
ghost use Rattle.mip_words.specs.Addresses.{is_routable};
ghost use Rattle.mip_rules_correspondent.specs.Steps.{Sends};
ghost use Rattle.mip_rules_correspondent.specs.Transitions.{noted};
ghost use Rattle.mip_rules_correspondent.specs.Doing.{request_refresh, data_sent, data_head};
ghost use Rattle.mip_correspondent.specs.Showing.{Goes};

use crate::answering::{idle, send};
use mip_entries::Answers;
use mip_ipv6::Head;
use mip_packets::{node_head, straight, write_data_packet, write_refresh};
use mip_rules_correspondent::Identity;
use mip_words::{Address, Memory};
use std::alloc::Global;

/// The request goes to the care-of address that is held for a home; nothing where none is held.
pub fn ask_refresh(
    alloc: Global,
    answers: &mut Answers,
    identity: &Identity,
    home: Address,
    held: Option<Address>,
) -> Result<(), Memory>
    requires { IfSome held (λ _. IsTrue (is_routable home.0)) }
    ensures { (now : ℕ) → Goes now result (request_refresh identity.now home held) answers.old answers.new }
{
    match held {
        None => idle(answers),
        Some(careof) => {
            let request = write_refresh(alloc, identity.own, careof, home)?;
            send(answers, request)
        }
    }
}

/// The head of data to the care-of address that is held for its destination, through the destination; straight
/// where none is held.
fn data_head(own: Address, to: Address, proto: u8, held: Option<Address>) -> Head
    requires routable { IfSome held (λ _. IsTrue (is_routable to.0)) }
    requires proto { IsFalse (names_no_body proto) }
    ensures head { result ≡ data_head own to proto held }
    ensures plain { IsTrue (is_plain result) }
{
    match held {
        None => straight(own, to, proto),
        Some(careof) => node_head(own, careof, Some(to), None, proto),
    }
}

/// Data is sent there.
pub fn send_data(
    alloc: Global,
    answers: &mut Answers,
    identity: &Identity,
    to: Address,
    proto: u8,
    payload: &[u8],
    held: Option<Address>,
) -> Result<(), Memory>
    requires routable { IfSome held (λ _. IsTrue (is_routable to.0)) }
    requires proto { IsFalse (names_no_body proto) }
    requires short { length payload.now ≤ 512 }
    ensures { (now : ℕ) → Goes now result (noted (Sends (data_sent identity.now to proto payload.now held))) answers.old answers.new }
{
    let head = data_head(identity.own, to, proto, held);
    let packet = write_data_packet(alloc, &head, payload)?;
    send(answers, packet)
}
