//! What is for a correspondent: test inits, updates and data (RFC 6275 sections 9.3.1, 9.4 and 9.5).

ghost use Rattle.std.specs.Prelude.{◌≡◌, option_map};
ghost use Rattle.mip_ipv6.specs.Packet.{packet as tree};
ghost use Rattle.mip_mobhdr.specs.Said.{said};
ghost use Rattle.mip_rules_correspondent.specs.Rules.{hands_up, is_data, is_for_part, by_message};
ghost use Rattle.mip_afresh_rules.specs.Showing.{Goes, GoesBy};

use crate::answering::hand_up;
use crate::asking::asked_by;
use crate::binding_update::BindingUpdate;
use crate::passed::Passed;
use crate::tests::{answer_careof_init, answer_home_init};
use crate::update::take_update;
use crate::who::Who;
use mip_entries::Answers;
use mip_ipv6::PacketRef;
use mip_mobhdr::Message;
use mip_words::Memory;
use mip_words::protocol::{ICMPV6, IPV6, MOBILITY_HEADER, NO_NEXT_HEADER};
use std::alloc::Global;

/// Neither a tunnel, nor ICMPv6, nor nothing, nor a mobility message.
fn is_data(proto: u8) -> bool
    ensures { result ≡ is_data proto }
{
    !(proto == IPV6 || proto == ICMPV6 || proto == NO_NEXT_HEADER || proto == MOBILITY_HEADER)
}

/// Whether a packet is for the correspondent.
pub fn is_for_part(proto: u8, message: &Option<Message<'_>>) -> bool
    ensures { result ≡ is_for_part proto (option_map said message.now) }
{
    match message {
        Some(Message::HomeInit { .. }) => true,
        Some(Message::CareofInit { .. }) => true,
        Some(Message::Update { .. }) => true,
        Some(_) => false,
        None => is_data(proto),
    }
}

/// Data is handed up from and to home addresses.
#[tactic(auto, unfolding(mip_rules_correspondent::specs::Rules::hands_up))]
fn hand_up_data(
    alloc: Global,
    answers: &mut Answers,
    who: &Who<'_>,
    packet: &PacketRef<'_>,
) -> Result<(), Memory>
    ensures { Goes who.now.at.moment.0 result (hands_up who.now.number (tree packet.now)) answers.old answers.new }
{
    let head = packet.head;
    let source = head.sender();
    let destination = head.receiver();
    hand_up(
        alloc,
        answers,
        who.number,
        source,
        destination,
        head.proto,
        packet.body,
    )
}

/// What is done about a packet and its message, if it has one: nothing about a message that is neither a test init nor an update.
#[tactic(auto, using(crate::proofs::Asked::asked_read, crate::proofs::Asked::taken_asked))]
pub fn answer_message(
    alloc: Global,
    answers: &mut Answers,
    who: &Who<'_>,
    passed: &Passed<'_>,
) -> Result<(), Memory>
    ensures { GoesBy who.now.kept who.now.at.moment.0 passed.now.packet.head.source passed.now.packet.head.home result
        (by_message who.now.me.now who.now.number (tree passed.now.packet) (option_map said passed.now.message)) answers.old answers.new }
{
    let packet = &passed.packet;
    let source = packet.head.source;
    match &passed.message {
        None => hand_up_data(alloc, answers, who, packet),
        Some(Message::HomeInit { cookie, .. }) => {
            answer_home_init(alloc, answers, who, source, *cookie)
        }
        Some(Message::CareofInit { cookie, .. }) => {
            answer_careof_init(alloc, answers, who, source, *cookie)
        }
        Some(other) => match asked_by(source, packet.head.home, other) {
            Some(registration) => {
                let message = packet.body;
                let update = BindingUpdate {
                    registration,
                    message,
                };
                take_update(alloc, answers, who, &update)
            }
            None => Ok(()),
        },
    }
}
