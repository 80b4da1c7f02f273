//! The calls of a node. What is nothing to it, and a node that is not declared, leaves `idle`.

ghost use Rattle.std.specs.Prelude.{◌≡◌, OnOk};
ghost use Rattle.mip_history.specs.RunsLaws.{IsRun};
ghost use Rattle.mip_history.specs.Calls as asked_for;
ghost use Rattle.mip_history.specs.Nodes.{acts};
ghost use Rattle.mip_afresh.specs.Tellings.{with_run};
ghost use Rattle.mip_afresh_nodes.specs.Members.{Stands};

use crate::acting::act;
use crate::agent_call::AgentCall;
use crate::agents::ask_agent;
use crate::answers::{about_data, about_packet, about_refresh};
use crate::idling::{idle_agent, idle_mobile, idle_plain};
use crate::member::{Member, member_of};
use crate::mobile_call::MobileCall;
use crate::mobiles::{ask_mobile, hand_to_mobile, refresh_by_mobile, send_by_mobile};
use crate::standing::Standing;
use mip_afresh::{Asked, Role, Telling};
use mip_afresh_rules::{Payload, Routable};
use mip_words::{Bytes, Memory, NodeId, Shield};
use std::alloc::Global;

/// A packet is handed to a correspondent.
fn take_as(
    alloc: Global,
    telling: &mut Telling,
    member: Member,
    number: u64,
    shield: Option<Shield>,
    packet: Bytes,
) -> Result<(), Memory>
    requires { Stands telling.old member }
    ensures { OnOk result (telling.new ≡ with_run (acts telling.old.setup member.node.0 (asked_for.Take number shield packet) telling.old.run) telling.old) }
{
    let standing = Standing { telling, member };
    let answers = about_packet(alloc, &standing, number, packet.as_slice())?;
    let asked = Asked::Take {
        number,
        shield,
        packet,
    };
    act(alloc, telling, member, asked, answers)
}

/// A packet is handed to a node, under its shield.
pub fn take(
    alloc: Global,
    telling: &mut Telling,
    node: NodeId,
    number: u64,
    shield: Option<Shield>,
    packet: Bytes,
) -> Result<(), Memory>
    requires { IsRun telling.old.setup telling.old.run }
    ensures { OnOk result (telling.new ≡ with_run (acts telling.old.setup node.0 (asked_for.Take number shield packet) telling.old.run) telling.old) }
{
    match telling.take_role(node) {
        Role::Agent(agent) => {
            let call = AgentCall::Take {
                number,
                shield,
                packet: packet.as_slice(),
            };
            ask_agent(alloc, telling, node, agent, &call)
        }
        Role::Mobile(mobile) => {
            hand_to_mobile(
                alloc,
                telling,
                node,
                mobile,
                number,
                shield,
                packet.as_slice(),
            )
        }
        Role::Plain => match member_of(telling, node)? {
            Some(member) => take_as(alloc, telling, member, number, shield, packet),
            None => telling.idle(),
        },
    }
}

/// A correspondent sends data.
fn send_as(
    alloc: Global,
    telling: &mut Telling,
    member: Member,
    to: Routable,
    payload: &Payload<'_>,
) -> Result<(), Memory>
    requires { Stands telling.old member }
    ensures { OnOk result (telling.new ≡ with_run (acts telling.old.setup member.node.0 (asked_for.Send to.address payload.now.proto payload.now.bytes.now) telling.old.run) telling.old) }
{
    let standing = Standing { telling, member };
    let answers = about_data(alloc, &standing, to, payload)?;
    let asked = Asked::Send {
        to: to.address,
        proto: payload.proto,
        payload: Bytes::copy(alloc, payload.bytes)?,
    };
    act(alloc, telling, member, asked, answers)
}

/// A node is to send data.
pub fn send(
    alloc: Global,
    telling: &mut Telling,
    node: NodeId,
    to: Routable,
    payload: &Payload<'_>,
) -> Result<(), Memory>
    requires { IsRun telling.old.setup telling.old.run }
    ensures { OnOk result (telling.new ≡ with_run (acts telling.old.setup node.0 (asked_for.Send to.address payload.now.proto payload.now.bytes.now) telling.old.run) telling.old) }
{
    match telling.take_role(node) {
        Role::Agent(agent) => idle_agent(telling, node, agent),
        Role::Mobile(mobile) => send_by_mobile(alloc, telling, node, mobile, to, payload),
        Role::Plain => match member_of(telling, node)? {
            Some(member) => send_as(alloc, telling, member, to, payload),
            None => telling.idle(),
        },
    }
}

/// A correspondent asks for a binding to be refreshed.
fn refresh_as(
    alloc: Global,
    telling: &mut Telling,
    member: Member,
    home: Routable,
) -> Result<(), Memory>
    requires { Stands telling.old member }
    ensures { OnOk result (telling.new ≡ with_run (acts telling.old.setup member.node.0 (asked_for.Refresh home.address) telling.old.run) telling.old) }
{
    let standing = Standing { telling, member };
    let answers = about_refresh(alloc, &standing, home)?;
    act(
        alloc,
        telling,
        member,
        Asked::Refresh(home.address),
        answers,
    )
}

/// A node is to ask for a binding of this home to be refreshed (RFC 6275 section 9.5.5).
pub fn refresh(
    alloc: Global,
    telling: &mut Telling,
    node: NodeId,
    home: Routable,
) -> Result<(), Memory>
    requires { IsRun telling.old.setup telling.old.run }
    ensures { OnOk result (telling.new ≡ with_run (acts telling.old.setup node.0 (asked_for.Refresh home.address) telling.old.run) telling.old) }
{
    match telling.take_role(node) {
        Role::Agent(agent) => idle_agent(telling, node, agent),
        Role::Mobile(mobile) => refresh_by_mobile(alloc, telling, node, mobile, home),
        Role::Plain => match member_of(telling, node)? {
            Some(member) => refresh_as(alloc, telling, member, home),
            None => telling.idle(),
        },
    }
}

/// A node is to plan the lifetimes of its prefix, in seconds (RFC 6275 section 10.6).
pub fn plan(
    alloc: Global,
    telling: &mut Telling,
    node: NodeId,
    valid: u32,
    preferred: u32,
) -> Result<(), Memory>
    ensures { OnOk result (telling.new ≡ with_run (acts telling.old.setup node.0 (asked_for.Plan valid preferred) telling.old.run) telling.old) }
{
    match telling.take_role(node) {
        Role::Agent(agent) => {
            let call = AgentCall::Plan { valid, preferred };
            ask_agent(alloc, telling, node, agent, &call)
        }
        Role::Mobile(mobile) => idle_mobile(telling, node, mobile),
        Role::Plain => idle_plain(telling, node),
    }
}

/// A node is to solicit the prefixes of its home link (RFC 6275 section 11.4.2).
pub fn ask(alloc: Global, telling: &mut Telling, node: NodeId) -> Result<(), Memory>
    ensures { OnOk result (telling.new ≡ with_run (acts telling.old.setup node.0 asked_for.Ask telling.old.run) telling.old) }
{
    match telling.take_role(node) {
        Role::Agent(agent) => idle_agent(telling, node, agent),
        Role::Mobile(mobile) => ask_mobile(alloc, telling, node, mobile, MobileCall::Ask),
        Role::Plain => idle_plain(telling, node),
    }
}
