//! The correspondent part, and what goes back to the source of a refused packet.

ghost use Rattle.std.specs.Prelude.{◌≡◌, OnOk};
ghost use Rattle.std.specs.List.{AllByRecursion};
ghost use Rattle.mip_ipv6.specs.Packet.{packet as tree};
ghost use Rattle.mip_ipv6.specs.Reading.{packet_of};
ghost use Rattle.mip_rules_correspondent.specs.Calls as parts;
ghost use Rattle.mip_rules_mobile.specs.Sendings.{OfPart, is_mobility};
ghost use Rattle.mip_rules_mobile.specs.OutRules.{goes_out, passes_on, passes_all, asks_part, replies};
ghost use Rattle.mip_rules_mobile.specs.Transitions.{Transition};
ghost use Rattle.mip_mobile_context.specs.Seen.{Shows};
ghost use Rattle.mip_mobile_context.specs.Outgoing.{CanPass};

use crate::call_context::CallContext;
use crate::data::Data;
use crate::original_packet::OriginalPacket;
use crate::outgoing::go_out;
use crate::part_packet::PartPacket;
use mip_entries::{Answer, Answers};
use mip_ipv6::read_packet;
use mip_reception::{Reply, write_reply};
use mip_words::protocol::MOBILITY_HEADER;
use mip_words::{Address, Memory};
use std::alloc::Global;

/// Whether a packet carries a mobility message.
pub fn is_mobility(packet: &[u8]) -> bool
    ensures { result ≡ is_mobility (packet_of packet.now) }
{
    match read_packet(packet) {
        Ok(read) => read.head.proto == MOBILITY_HEADER,
        Err(_) => false,
    }
}

/// A packet of the correspondent part, or one that goes back, goes out.
fn go_out_of_part(
    alloc: Global,
    context: &mut CallContext,
    packet: OriginalPacket,
) -> Result<(), Memory>
    ensures { (t : Transition) → Shows context.old t → OnOk result (Shows context.new (goes_out (OfPart packet.bytes) t)) }
{
    let signals = is_mobility(packet.bytes.as_slice());
    go_out(alloc, context, signals, packet)
}

/// An answer of the correspondent part is passed on: it sends from the home address, and its entries are the mobile's.
fn pass_on(alloc: Global, context: &mut CallContext, answer: Answer) -> Result<(), Memory>
    requires { CanPass answer }
    ensures { (t : Transition) → Shows context.old t → OnOk result (Shows context.new (passes_on answer t)) }
{
    match answer {
        Answer::Send { shield: _, packet } => {
            go_out_of_part(alloc, context, OriginalPacket { bytes: packet })
        }
        Answer::Note(entry) => context.note_entry(entry),
    }
}

/// The answers of the correspondent part are passed on, in order, and with them what the check behind an acceptance found.
#[tactic(auto, unfolding(mip_rules_mobile::specs::OutRules::passes_all))]
fn pass_all(alloc: Global, context: &mut CallContext, answers: Answers) -> Result<(), Memory>
    requires { AllByRecursion CanPass answers }
    ensures { (t : Transition) → Shows context.old t → OnOk result (Shows context.new (passes_all answers t)) }
{
    let mut answers = answers;
    context.keep_witness(answers.take_witness());
    for answer in answers.into_vec() {
        pass_on(alloc, context, answer)?;
    }
    Ok(())
}

/// The correspondent part is given a packet, and what it answers goes out.
pub fn ask_part(
    alloc: Global,
    context: &mut CallContext,
    number: u64,
    packet: &PartPacket<'_>,
) -> Result<(), Memory>
    ensures { (t : Transition) → Shows context.old t → OnOk result (Shows context.new (asks_part (parts.Part number (tree packet.now.packet)) t)) }
{
    let answers = context.give_part(alloc, number, packet)?;
    pass_all(alloc, context, answers)
}

/// The correspondent part is asked for a Binding Refresh Request to a home.
pub fn ask_refresh(alloc: Global, context: &mut CallContext, home: Address) -> Result<(), Memory>
    ensures { (t : Transition) → Shows context.old t → OnOk result (Shows context.new (asks_part (parts.Refresh home) t)) }
{
    let answers = context.refresh_part(alloc, home)?;
    pass_all(alloc, context, answers)
}

/// The correspondent part is asked to send data.
pub fn ask_data(
    alloc: Global,
    context: &mut CallContext,
    to: Address,
    data: &Data<'_>,
) -> Result<(), Memory>
    ensures { (t : Transition) → Shows context.old t → OnOk result (Shows context.new (asks_part (parts.Send to data.now.proto data.now.payload.now) t)) }
{
    let answers = context.send_part(alloc, to, data)?;
    pass_all(alloc, context, answers)
}

/// What goes back to the source of a refused packet.
#[tactic(auto, unfolding(mip_rules_mobile::specs::OutRules::replies))]
pub fn reply(
    alloc: Global,
    context: &mut CallContext,
    source: Address,
    packet: &[u8],
    reply: Reply,
) -> Result<(), Memory>
    ensures { (t : Transition) → Shows context.old t → OnOk result (Shows context.new (replies source packet.now reply t)) }
{
    match write_reply(alloc, context.home(), source, packet, reply)? {
        Some(bytes) => {
            let packet = OriginalPacket { bytes };
            go_out_of_part(alloc, context, packet)
        }
        None => Ok(()),
    }
}
