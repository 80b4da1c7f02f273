//! A correspondent node by its handle.

ghost use Rattle.std.specs.Prelude.{◌≡◌, ◌<◌, None, option_map, true, IfOk};
ghost use Rattle.mip_words.specs.Addresses.{address_at};
ghost use Rattle.mip_rules_correspondent.specs.Calls as calls;
ghost use Rattle.mip_c_words.specs.Calls.{ByHandle, close_status};
ghost use Rattle.mip_c_words.specs.AnswerQueues.{NextAt};
ghost use Rattle.mip_c_correspondent.specs.Stations.{Answers as AnswersCall, Ticks, is_sendable, has_room, IsFresh};
ghost use Rattle.mip_c_correspondent.specs.Handles.{Opens, RouteAt, RowAt};

use crate::correspondent_handle::{CorrespondentHandle, put_in, take_out};
use crate::row_fields::RowFields;
use crate::station::Station;
use mip_c_words::addresses::address_of;
use mip_c_words::answer_fields::AnswerFields;
use mip_c_words::answer_queue::AnswerQueue;
use mip_c_words::status::{ALREADY_OPEN, ARGUMENT, CLOSED, MEMORY, OK};
use mip_correspondent::Correspondent;
use mip_entries::Answers;
use mip_nonce::Secrets;
use mip_words::{Address, Memory, Moment, NodeId};
use std::alloc::Global;

fn has_room(room: u32, numbers: u8) -> bool
    ensures { result ≡ has_room room numbers }
{
    numbers >= 1 && numbers <= 8 && u64::from(room) * u64::from(numbers) < 1 << 32
}

/// A station that begins.
fn fresh_station(
    alloc: Global,
    own: Address,
    secrets: Secrets,
    room: u32,
    numbers: u8,
) -> Result<Station, Memory>
    requires { has_room room numbers ≡ true }
    ensures { IfOk result (IsFresh own secrets room numbers) }
{
    let node = Correspondent::new(alloc, own, secrets, room, numbers)?;
    let answers = Answers::new(alloc)?;
    Ok(Station {
        node,
        last: Moment(0),
        queue: AnswerQueue::of(answers),
    })
}

/// The same on the heap.
fn boxed_station(
    alloc: Global,
    own: Address,
    secrets: Secrets,
    room: u32,
    numbers: u8,
) -> Result<Box<Station>, Memory>
    requires { has_room room numbers ≡ true }
    ensures { IfOk result (λ b. IsFresh own secrets room numbers b.value) }
{
    let station = fresh_station(alloc, own, secrets, room, numbers)?;
    Ok(Box::new(alloc, station)?)
}

/// Opens a handle on a correspondent node with its own address (RFC 6275 section 9), which draws its secrets from a seed, the
/// node's number and the number of its life: a node that lost its state takes the next life. It keeps the bindings of `room`
/// homes at most, and `numbers` bindings of each, 1 to 8; 1 is that of RFC 6275.
/// Tells `MIP_OK`; `MIP_ALREADY_OPEN`; `MIP_MEMORY`; `MIP_ARGUMENT` where `numbers` is not 1 to 8, or `room` times `numbers` is
/// 2^32 or more.
#[unsafe(no_mangle)]
pub extern "C" fn mip_correspondent_open(
    alloc: Global,
    handle: &mut CorrespondentHandle,
    own: &[u8; 16],
    seed: &[u8; 32],
    node: u8,
    life: u32,
    room: u32,
    numbers: u8,
) -> u32
    ensures { Opens handle.old.held.value handle.new.held.value (address_at 0 own.now)
        (record { seed = seed.now; node = node; life = life }) room numbers result }
{
    if let Some(station) = take_out(alloc, handle) {
        put_in(handle, station);
        return ALREADY_OPEN;
    }
    if !has_room(room, numbers) {
        return ARGUMENT;
    }
    let secrets = Secrets::new(seed, NodeId(node), life);
    match boxed_station(alloc, address_of(own), secrets, room, numbers) {
        Ok(station) => {
            put_in(handle, station);
            OK
        }
        Err(Memory) => MEMORY,
    }
}

/// Closes a handle: its node is given up, and its memory is free.
/// Tells `MIP_OK`; `MIP_CLOSED` where it is closed already.
#[unsafe(no_mangle)]
pub extern "C" fn mip_correspondent_close(alloc: Global, handle: &mut CorrespondentHandle) -> u32
    ensures status { result ≡ close_status handle.old.held.value }
    ensures closed { handle.new.held.value ≡ None }
{
    match take_out(alloc, handle) {
        Some(_station) => OK,
        None => CLOSED,
    }
}

/// Hands a packet to the node at a moment in milliseconds (RFC 6275 sections 9.3 to 9.5). The number is the caller's own, and
/// stands in the answers. The answers wait for `mip_correspondent_next`, and those of the call before are forgotten.
/// Tells `MIP_OK`, also where the packet is dropped; `MIP_CLOSED`; `MIP_LATE`; `MIP_MEMORY`. After each but `MIP_OK` the node
/// and its answers are as they were.
#[unsafe(no_mangle)]
pub extern "C" fn mip_correspondent_take(
    alloc: Global,
    handle: &mut CorrespondentHandle,
    now: u64,
    number: u64,
    packet: &[u8],
) -> u32
    ensures { ByHandle handle.old.held.value handle.new.held.value result (λ s t. AnswersCall true s t now (calls.Take number None packet.now) result) }
{
    match take_out(alloc, handle) {
        Some(mut station) => {
            let status = station.take(alloc, Moment(now), number, packet);
            put_in(handle, station);
            status
        }
        None => CLOSED,
    }
}

/// Has the node send data at a moment in milliseconds, on the direct way where a binding is held (RFC 6275 section 9.3.2). The
/// answers are as those of `mip_correspondent_take`.
/// Tells `MIP_OK`; `MIP_CLOSED`; `MIP_LATE`; `MIP_ARGUMENT` where `proto` is 41, 58, 59, 135, 0, 43, 44, 50, 51 or 60, or the
/// payload has more than 512 bytes; `MIP_MEMORY`. After each but `MIP_OK` the node and its answers are as they were.
#[unsafe(no_mangle)]
pub extern "C" fn mip_correspondent_send(
    alloc: Global,
    handle: &mut CorrespondentHandle,
    now: u64,
    to: &[u8; 16],
    proto: u8,
    payload: &[u8],
) -> u32
    ensures { ByHandle handle.old.held.value handle.new.held.value result (λ s t. AnswersCall (is_sendable proto payload.now) s t now
        (calls.Send (address_at 0 to.now) proto payload.now) result) }
{
    match take_out(alloc, handle) {
        Some(mut station) => {
            let status = station.send(alloc, Moment(now), address_of(to), proto, payload);
            put_in(handle, station);
            status
        }
        None => CLOSED,
    }
}

/// Has the node ask the care-of address that is held for a home for a Binding Update (RFC 6275 section 9.5.5), at a moment in
/// milliseconds. The answer is `MIP_ANSWER_IDLE` where none is held.
/// Tells `MIP_OK`; `MIP_CLOSED`; `MIP_LATE`; `MIP_MEMORY`. After each but `MIP_OK` the node and its answers are as they were.
#[unsafe(no_mangle)]
pub extern "C" fn mip_correspondent_refresh(
    alloc: Global,
    handle: &mut CorrespondentHandle,
    now: u64,
    home: &[u8; 16],
) -> u32
    ensures { ByHandle handle.old.held.value handle.new.held.value result (λ s t. AnswersCall true s t now (calls.Refresh (address_at 0 home.now)) result) }
{
    match take_out(alloc, handle) {
        Some(mut station) => {
            let status = station.refresh(alloc, Moment(now), address_of(home));
            put_in(handle, station);
            status
        }
        None => CLOSED,
    }
}

/// Lets time go on to a moment in milliseconds: rows past their time are given up, and no answer is left.
/// Tells `MIP_OK`; `MIP_CLOSED`; `MIP_LATE`; `MIP_MEMORY`. After each but `MIP_OK` the node and its answers are as they were.
#[unsafe(no_mangle)]
pub extern "C" fn mip_correspondent_tick(
    alloc: Global,
    handle: &mut CorrespondentHandle,
    now: u64,
) -> u32
    ensures { ByHandle handle.old.held.value handle.new.held.value result (λ s t. Ticks s t now result) }
{
    match take_out(alloc, handle) {
        Some(mut station) => {
            let status = station.tick(alloc, Moment(now));
            put_in(handle, station);
            status
        }
        None => CLOSED,
    }
}

/// Tells the next answer of the last call: its fields, and its packet or payload.
/// Tells `MIP_OK`; `MIP_CLOSED`; `MIP_NONE` where no answer is left; `MIP_NO_ROOM` with fields and size, after which the answer is
/// still the next one.
#[unsafe(no_mangle)]
pub extern "C" fn mip_correspondent_next(
    alloc: Global,
    handle: &mut CorrespondentHandle,
    fields: &mut AnswerFields,
    bytes: &mut [u8],
    size: &mut usize,
) -> u32
    ensures next { NextAt (option_map (λ s. s.queue) handle.old.held.value) (option_map (λ s. s.queue) handle.new.held.value) result
        fields.old fields.new bytes.old bytes.new size.old size.new }
    ensures node { option_map (λ s. s.node) handle.new.held.value ≡ option_map (λ s. s.node) handle.old.held.value }
    ensures last { option_map (λ s. s.last) handle.new.held.value ≡ option_map (λ s. s.last) handle.old.held.value }
{
    match take_out(alloc, handle) {
        Some(mut station) => {
            let status = station.next(fields, bytes, size);
            put_in(handle, station);
            status
        }
        None => CLOSED,
    }
}

/// Tells the care-of address that is held for a home at a moment in milliseconds (RFC 6275 section 9.1).
/// Tells `MIP_OK`; `MIP_CLOSED`; `MIP_LATE`; `MIP_NONE` where none is held. The node stays as it was.
#[unsafe(no_mangle)]
pub extern "C" fn mip_correspondent_route(
    alloc: Global,
    handle: &mut CorrespondentHandle,
    now: u64,
    peer: &[u8; 16],
    careof: &mut [u8; 16],
) -> u32
    ensures route { RouteAt handle.old.held.value now (address_at 0 peer.now) result careof.old careof.new }
    ensures same { handle.new.held.value ≡ handle.old.held.value }
{
    match take_out(alloc, handle) {
        Some(station) => {
            let status = station.route(Moment(now), address_of(peer), careof);
            put_in(handle, station);
            status
        }
        None => CLOSED,
    }
}

/// Tells the row at a place from 0 of the node's binding cache at a moment in milliseconds, by home address and then by number
/// (RFC 6275 section 9.1).
/// Tells `MIP_OK`; `MIP_CLOSED`; `MIP_LATE`; `MIP_NONE` past the last row. The node stays as it was.
#[unsafe(no_mangle)]
pub extern "C" fn mip_correspondent_row(
    alloc: Global,
    handle: &mut CorrespondentHandle,
    now: u64,
    place: u32,
    row: &mut RowFields,
) -> u32
    ensures row { RowAt handle.old.held.value now place result row.old row.new }
    ensures same { handle.new.held.value ≡ handle.old.held.value }
{
    match take_out(alloc, handle) {
        Some(station) => {
            let status = station.row(Moment(now), place, row);
            put_in(handle, station);
            status
        }
        None => CLOSED,
    }
}
