//! Mobile Prefix Solicitations, and what answers them (RFC 6275 sections 11.4.2 and 11.4.3).

ghost use Rattle.std.specs.Prelude.{◌≡◌, OnOk, Some};
ghost use Rattle.mip_rules_mobile.specs.declared.attachment.Attachment.TheVariants.{Away};
ghost use Rattle.mip_rules_mobile.specs.Transitions.{Transition};
ghost use Rattle.mip_rules_mobile.specs.Doing.{solicits_from, solicits};
ghost use Rattle.mip_rules_mobile.specs.IcmpRules.{is_from_agent, learns, takes_prefix_reply};
ghost use Rattle.mip_icmp.specs.Options.{set_of};
ghost use Rattle.mip_mobile_context.specs.Seen.{Shows};

use crate::packets::write_solicitation;
use mip_icmp::{IcmpOptions, PrefixInfo};
use mip_mobile_context::CallContext;
use mip_rules_mobile::Attachment;
use mip_words::{Address, Memory, Shield, Why};
use std::alloc::Global;

/// A solicitation goes to the agent of the registration.
pub fn solicit(alloc: Global, context: &mut CallContext) -> Result<(), Memory>
    ensures { (t : Transition) → Shows context.old t → OnOk result (Shows context.new (solicits t)) }
{
    let standing = context.standing();
    let agent = context.registered_agent();
    solicit_from(alloc, context, standing, agent)
}

fn solicit_from(
    alloc: Global,
    context: &mut CallContext,
    standing: Attachment,
    agent: Option<Address>,
) -> Result<(), Memory>
    ensures { (t : Transition) → Shows context.old t → OnOk result (Shows context.new (solicits_from standing agent t)) }
{
    match (standing, agent) {
        (Attachment::Away { careof }, Some(agent)) => send_solicitation(
            alloc, context, careof, agent,
        ),
        _ => context.unsend(Why::Unregistered),
    }
}

fn send_solicitation(
    alloc: Global,
    context: &mut CallContext,
    careof: Address,
    agent: Address,
) -> Result<(), Memory>
    ensures { (t : Transition) → Shows context.old t → OnOk result (Shows context.new (solicits_from (Away careof) (Some agent) t)) }
{
    let identifier = context.next_solicitation();
    let packet = write_solicitation(alloc, context.home(), careof, agent, identifier)?;
    context.put_solicitation(careof, agent, identifier, packet)
}

/// Whether a packet is protected by the agent.
fn is_from_agent(shield: Option<Shield>, agent: Option<Address>) -> bool
    ensures { result ≡ is_from_agent shield agent }
{
    match (shield, agent) {
        (Some(shield), Some(agent)) => shield.from.0 == agent.0,
        _ => false,
    }
}

/// A prefix is learnt from the agent alone.
fn learn(
    context: &mut CallContext,
    number: u64,
    right: bool,
    prefix: Option<PrefixInfo>,
) -> Result<(), Memory>
    ensures { (t : Transition) → Shows context.old t → OnOk result (Shows context.new (learns number right prefix t)) }
{
    match prefix {
        Some(prefix) if right => context.learn(prefix.valid, prefix.preferred),
        _ => context.drop_packet(number, Why::Icmp),
    }
}

/// A Mobile Prefix Advertisement: what it says of the prefix is learnt where it comes from the agent.
pub fn take_prefix_reply(
    context: &mut CallContext,
    number: u64,
    shield: Option<Shield>,
    options: &IcmpOptions<'_>,
) -> Result<(), Memory>
    ensures { (t : Transition) → Shows context.old t → OnOk result (Shows context.new (takes_prefix_reply number shield (set_of options.now) t)) }
{
    let right = is_from_agent(shield, context.agent());
    learn(context, number, right, options.prefix)
}
