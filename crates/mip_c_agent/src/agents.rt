//! A home agent by its handle.

ghost use Rattle.std.specs.Prelude.{◌≡◌, None, option_map, true, is_some, IfOk, IfSome};
ghost use Rattle.mip_words.specs.Addresses.{address_at};
ghost use Rattle.mip_rules_agent.specs.Calls as calls;
ghost use Rattle.mip_rules_agent.specs.Calls.{claim_for};
ghost use Rattle.mip_c_words.specs.Calls.{ByHandle, close_status};
ghost use Rattle.mip_c_words.specs.AnswerQueues.{NextAt};
ghost use Rattle.mip_c_agent.specs.Handles.{Opens, CareofAt, RowAt, DueAt, can_serve};
ghost use Rattle.mip_c_agent.specs.Neighbourhoods.{around_of};
ghost use Rattle.mip_c_agent.specs.Shields.{shield_of};
ghost use Rattle.mip_c_agent.specs.Sixteens.{are_addresses, addresses_in, are_served};
ghost use Rattle.mip_c_agent.specs.Stations.{Answers as AnswersCall, Hears, IsFresh};

use crate::agent_handle::{AgentHandle, put_in, take_out};
use crate::registration_fields::RegistrationFields;
use crate::shield_fields::ShieldFields;
use crate::sixteens::{addresses_in, are_addresses, are_served};
use crate::station::Station;
use mip_c_words::addresses::address_of;
use mip_c_words::answer_fields::AnswerFields;
use mip_c_words::answer_queue::AnswerQueue;
use mip_c_words::status::{ALREADY_OPEN, ARGUMENT, CLOSED, MEMORY, OK};
use mip_entries::Answers;
use mip_homeagent::HomeAgent;
use mip_rules_agent::Identity;
use mip_words::{Address, Memory, Moment};
use std::alloc::Global;

/// A station that begins.
#[tactic(auto, using(crate::proofs::Rooms::each_routable))]
fn fresh_station(
    alloc: Global,
    identity: &Identity,
    serves: &[Address],
) -> Result<Box<Station>, Memory>
    requires { are_served serves.now ≡ true }
    ensures { IfOk result (λ b. IsFresh identity.now serves.now b.value) }
{
    let node = HomeAgent::new(
        alloc,
        identity.own,
        identity.preference,
        identity.life,
        identity.room,
        serves,
    )?;
    let answers = Answers::new(alloc)?;
    let station = Station {
        node,
        last: Moment(0),
        queue: AnswerQueue::of(answers),
    };
    Ok(Box::new(alloc, station)?)
}

/// A station on the heap that serves the homes of these bytes, where they can be served.
fn served_station(
    alloc: Global,
    identity: &Identity,
    serves: &[u8],
) -> Result<Option<Box<Station>>, Memory>
    ensures fits { IfOk result (λ o. is_some o ≡ can_serve serves.now) }
    ensures fresh { IfOk result (λ o. IfSome o (λ b. IsFresh identity.now (addresses_in serves.now) b.value)) }
{
    if !are_addresses(serves) {
        return Ok(None);
    }
    let homes = addresses_in(alloc, serves)?;
    if !are_served(&homes) {
        return Ok(None);
    }
    let station = fresh_station(alloc, identity, &homes)?;
    Ok(Some(station))
}

/// Opens a handle on a home agent with its own address (RFC 6275 section 10), which serves the homes of `serves`, 16 bytes
/// each, and registers `room` of them at most at a time. It answers discovery of agents with its `preference`, and sends
/// no router advertisements.
/// Tells `MIP_OK`; `MIP_ALREADY_OPEN`; `MIP_MEMORY`; `MIP_ARGUMENT` where `serves` is no list of addresses that packets are
/// routed to.
#[unsafe(no_mangle)]
pub extern "C" fn mip_agent_open(
    alloc: Global,
    handle: &mut AgentHandle,
    own: &[u8; 16],
    preference: u16,
    room: u32,
    serves: &[u8],
) -> u32
    ensures { Opens handle.old.held.value handle.new.held.value
        (record { own = address_at 0 own.now; preference = preference; life = 0; room = room }) serves.now result }
{
    if let Some(station) = take_out(alloc, handle) {
        put_in(handle, station);
        return ALREADY_OPEN;
    }
    let own = address_of(own);
    let identity = Identity {
        own,
        preference,
        life: 0,
        room,
    };
    match served_station(alloc, &identity, serves) {
        Ok(Some(station)) => {
            put_in(handle, station);
            OK
        }
        Ok(None) => ARGUMENT,
        Err(Memory) => MEMORY,
    }
}

/// Closes a handle: its agent is given up, and its memory is free. The caller gives up the addresses that the agent had
/// claimed.
/// Tells `MIP_OK`; `MIP_CLOSED` where it is closed already.
#[unsafe(no_mangle)]
pub extern "C" fn mip_agent_close(alloc: Global, handle: &mut AgentHandle) -> u32
    ensures status { result ≡ close_status handle.old.held.value }
    ensures closed { handle.new.held.value ≡ None }
{
    match take_out(alloc, handle) {
        Some(_station) => OK,
        None => CLOSED,
    }
}

/// Hands a packet to the agent at a moment in milliseconds, with the protection that it came under (RFC 6275 sections 10.3 to
/// 10.5). The number is the caller's own, and stands in the answers. `others` are the addresses of the home link that somebody
/// else holds, 16 bytes each: the agent claims none of them, and of each address that it claims or gives up an answer tells.
/// The answers wait for `mip_agent_next`, and those of the call before are forgotten.
/// Tells `MIP_OK`, also where the packet is dropped; `MIP_CLOSED`; `MIP_LATE`; `MIP_ARGUMENT` where `others` is no list of
/// addresses; `MIP_MEMORY`. After each but `MIP_OK` the agent and its answers are as they were.
#[unsafe(no_mangle)]
pub extern "C" fn mip_agent_take(
    alloc: Global,
    handle: &mut AgentHandle,
    now: u64,
    number: u64,
    shield: &ShieldFields,
    others: &[u8],
    packet: &[u8],
) -> u32
    ensures { ByHandle handle.old.held.value handle.new.held.value result (λ s t. AnswersCall (are_addresses others.now) s t now
        (calls.Take number (shield_of shield.now) packet.now (claim_for (around_of others.now) packet.now)) result) }
{
    match take_out(alloc, handle) {
        Some(mut station) => {
            let status = station.take(alloc, Moment(now), number, shield, others, packet);
            put_in(handle, station);
            status
        }
        None => CLOSED,
    }
}

/// Lets time go on to a moment in milliseconds: the registrations whose time is over end, and their addresses are given up
/// (RFC 6275 section 10.3.1). The answers are as those of `mip_agent_take`.
/// Tells `MIP_OK`; `MIP_CLOSED`; `MIP_LATE`; `MIP_MEMORY`. After each but `MIP_OK` the agent and its answers are as they were.
#[unsafe(no_mangle)]
pub extern "C" fn mip_agent_tick(alloc: Global, handle: &mut AgentHandle, now: u64) -> u32
    ensures { ByHandle handle.old.held.value handle.new.held.value result (λ s t. AnswersCall true s t now calls.Tick result) }
{
    match take_out(alloc, handle) {
        Some(mut station) => {
            let status = station.tick(alloc, Moment(now));
            put_in(handle, station);
            status
        }
        None => CLOSED,
    }
}

/// Tells the agent at a moment in milliseconds that its prefix is valid and preferred for so many seconds from now on, of
/// which each registered home is told (RFC 6275 section 10.6). The answers are as those of `mip_agent_take`.
/// Tells `MIP_OK`; `MIP_CLOSED`; `MIP_LATE`; `MIP_MEMORY`. After each but `MIP_OK` the agent and its answers are as they were.
#[unsafe(no_mangle)]
pub extern "C" fn mip_agent_plan(
    alloc: Global,
    handle: &mut AgentHandle,
    now: u64,
    valid: u32,
    preferred: u32,
) -> u32
    ensures { ByHandle handle.old.held.value handle.new.held.value result (λ s t. AnswersCall true s t now (calls.Plan valid preferred) result) }
{
    match take_out(alloc, handle) {
        Some(mut station) => {
            let status = station.plan(alloc, Moment(now), valid, preferred);
            put_in(handle, station);
            status
        }
        None => CLOSED,
    }
}

/// Tells the agent at a moment in milliseconds of the advertisement of another home agent of its link: its preference, and for
/// how many seconds it lives (RFC 6275 section 10.5.1). No answer is left.
/// Tells `MIP_OK`; `MIP_CLOSED`; `MIP_LATE`; `MIP_MEMORY`. After each but `MIP_OK` the agent and its answers are as they were.
#[unsafe(no_mangle)]
pub extern "C" fn mip_agent_heard(
    alloc: Global,
    handle: &mut AgentHandle,
    now: u64,
    agent: &[u8; 16],
    preference: u16,
    life: u16,
) -> u32
    ensures { ByHandle handle.old.held.value handle.new.held.value result (λ s t. Hears s t now (calls.Hear (address_at 0 agent.now) preference life) result) }
{
    match take_out(alloc, handle) {
        Some(mut station) => {
            let status = station.heard(alloc, Moment(now), address_of(agent), preference, life);
            put_in(handle, station);
            status
        }
        None => CLOSED,
    }
}

/// Tells the next answer of the last call: its fields, and its packet.
/// Tells `MIP_OK`; `MIP_CLOSED`; `MIP_NONE` where no answer is left; `MIP_NO_ROOM` with fields and size, after which the answer is
/// still the next one.
#[unsafe(no_mangle)]
pub extern "C" fn mip_agent_next(
    alloc: Global,
    handle: &mut AgentHandle,
    fields: &mut AnswerFields,
    bytes: &mut [u8],
    size: &mut usize,
) -> u32
    ensures next { NextAt (option_map (λ s. s.queue) handle.old.held.value) (option_map (λ s. s.queue) handle.new.held.value) result
        fields.old fields.new bytes.old bytes.new size.old size.new }
    ensures node { option_map (λ s. s.node) handle.new.held.value ≡ option_map (λ s. s.node) handle.old.held.value }
    ensures last { option_map (λ s. s.last) handle.new.held.value ≡ option_map (λ s. s.last) handle.old.held.value }
{
    match take_out(alloc, handle) {
        Some(mut station) => {
            let status = station.next(fields, bytes, size);
            put_in(handle, station);
            status
        }
        None => CLOSED,
    }
}

/// Tells the care-of address that is registered for a home at a moment in milliseconds (RFC 6275 section 10.1).
/// Tells `MIP_OK`; `MIP_CLOSED`; `MIP_LATE`; `MIP_NONE` where none is registered. The agent stays as it was.
#[unsafe(no_mangle)]
pub extern "C" fn mip_agent_careof(
    alloc: Global,
    handle: &mut AgentHandle,
    now: u64,
    home: &[u8; 16],
    careof: &mut [u8; 16],
) -> u32
    ensures careof { CareofAt handle.old.held.value now (address_at 0 home.now) result careof.old careof.new }
    ensures same { handle.new.held.value ≡ handle.old.held.value }
{
    match take_out(alloc, handle) {
        Some(station) => {
            let status = station.careof(Moment(now), address_of(home), careof);
            put_in(handle, station);
            status
        }
        None => CLOSED,
    }
}

/// Tells the home at a place from 0 among those that are registered at a moment in milliseconds, in order of address (RFC 6275
/// section 10.1).
/// Tells `MIP_OK`; `MIP_CLOSED`; `MIP_LATE`; `MIP_NONE` past the last one. The agent stays as it was.
#[unsafe(no_mangle)]
pub extern "C" fn mip_agent_row(
    alloc: Global,
    handle: &mut AgentHandle,
    now: u64,
    place: u32,
    row: &mut RegistrationFields,
) -> u32
    ensures row { RowAt handle.old.held.value now place result row.old row.new }
    ensures same { handle.new.held.value ≡ handle.old.held.value }
{
    match take_out(alloc, handle) {
        Some(station) => {
            let status = station.row(Moment(now), place, row);
            put_in(handle, station);
            status
        }
        None => CLOSED,
    }
}

/// Tells the moment in milliseconds of the first end of a registration: the next one that `mip_agent_tick` is wanted at.
/// Tells `MIP_OK`; `MIP_CLOSED`; `MIP_NONE` where no registration ends. The agent stays as it was.
#[unsafe(no_mangle)]
pub extern "C" fn mip_agent_due(alloc: Global, handle: &mut AgentHandle, due: &mut u64) -> u32
    ensures due { DueAt handle.old.held.value result due.old due.new }
    ensures same { handle.new.held.value ≡ handle.old.held.value }
{
    match take_out(alloc, handle) {
        Some(station) => {
            let status = station.due(due);
            put_in(handle, station);
            status
        }
        None => CLOSED,
    }
}
