//! What the types of its fields say of an entry. The functions do nothing: what they ensure is the law.
//! Each `let _` of theirs reads a value for the prover alone, who then has what its type says of it.

ghost use Rattle.mip_words.specs.Numbers.{IsBytes};
ghost use Rattle.mip_entries.specs.Widths.{IsNumber, IsAddress, IsMoment, IsToken, IfPresent, HasWidths, HasPlaceWidths, HasPacketWidths, HasMobileWidths, HasRowWidths, HasUpdateWidths};

use crate::entry::Entry;
use mip_words::{Address, Bytes, Moment, Token};

fn slice_is_of_bytes(bytes: &[u8])
    ensures { IsBytes bytes.now }
{
    let _count = bytes.len();
}

fn bytes_are_bytes(bytes: &Bytes)
    ensures { IsBytes bytes.now }
{
    slice_is_of_bytes(bytes.as_slice());
}

fn byte_fits(x: u8)
    ensures { IsNumber 8 x }
{
    let _ = x;
}

fn short_fits(x: u16)
    ensures { IsNumber 16 x }
{
    let _ = x;
}

fn seconds_fit(x: u32)
    ensures { IsNumber 32 x }
{
    let _ = x;
}

fn number_fits(x: u64)
    ensures { IsNumber 64 x }
{
    let _ = x;
}

fn some_short_fits(x: Option<u16>)
    ensures { IfPresent (IsNumber 16) x }
{
    if let Some(x) = x {
        short_fits(x);
    }
}

fn some_number_fits(x: Option<u64>)
    ensures { IfPresent (IsNumber 64) x }
{
    if let Some(x) = x {
        number_fits(x);
    }
}

fn moment_fits(moment: Moment)
    ensures { IsMoment moment }
{
    let _milliseconds = moment.0;
}

fn address_fits(address: Address)
    ensures { IsAddress address }
{
    let _bits = address.0;
}

fn some_address_fits(address: Option<Address>)
    ensures { IfPresent IsAddress address }
{
    if let Some(address) = address {
        address_fits(address);
    }
}

fn token_fits(token: Token)
    ensures { IsToken token }
{
    let _bytes = token.0;
}

fn some_token_fits(token: Option<Token>)
    ensures { IfPresent IsToken token }
{
    if let Some(token) = token {
        token_fits(token);
    }
}

/// A law of entries on time, place and the claims of addresses: their numbers fit their bits.
fn place_widths(entry: &Entry)
    ensures { HasPlaceWidths entry.now }
{
    match entry {
        Entry::At { moment } => moment_fits(*moment),
        Entry::Advertised { agent, .. } => some_address_fits(*agent),
        Entry::Careof { address, .. }
        | Entry::Claimed { address, .. }
        | Entry::Released { address, .. }
        | Entry::Taken { address, .. } => address_fits(*address),
        _ => {}
    }
}

/// A law of entries on what becomes of packets and of the data in them: their numbers fit their bits.
fn packet_widths(entry: &Entry)
    ensures { HasPacketWidths entry.now }
{
    match entry {
        Entry::Sent { number, packet, .. } | Entry::Injected { number, packet, .. } => {
            number_fits(*number);
            bytes_are_bytes(packet);
        }
        Entry::Heard { number, .. }
        | Entry::Handed { number, .. }
        | Entry::Gone { number, .. }
        | Entry::Lost { number }
        | Entry::Dropped { number, .. } => number_fits(*number),
        Entry::Up {
            number,
            source,
            destination,
            proto,
            payload,
            ..
        } => {
            number_fits(*number);
            address_fits(*source);
            address_fits(*destination);
            byte_fits(*proto);
            bytes_are_bytes(payload);
        }
        _ => {}
    }
}

/// A law of entries on what a mobile knows and does: their numbers fit their bits.
fn mobile_widths(entry: &Entry)
    ensures { HasMobileWidths entry.now }
{
    match entry {
        Entry::Registered { agent, end, .. } => {
            address_fits(*agent);
            moment_fits(*end);
        }
        Entry::Bound { peer, end, .. } => {
            address_fits(*peer);
            moment_fits(*end);
        }
        Entry::Unregistered { agent, .. } | Entry::Chosen { agent, .. } => address_fits(*agent),
        Entry::Unbound { peer, .. } => address_fits(*peer),
        Entry::Refused { status, .. } => byte_fits(*status),
        Entry::Prefixes {
            valid,
            preferred,
            ..
        } => {
            seconds_fit(*valid);
            seconds_fit(*preferred);
        }
        Entry::Made {
            peer,
            number,
            home,
            careof,
            ..
        } => {
            address_fits(*peer);
            number_fits(*number);
            token_fits(*home);
            some_token_fits(*careof);
        }
        _ => {}
    }
}

/// A law of entries on registrations of homes and rows of caches: their numbers fit their bits.
fn row_widths(entry: &Entry)
    ensures { HasRowWidths entry.now }
{
    match entry {
        Entry::Home {
            home,
            careof,
            sequence,
            end,
            ..
        } => {
            address_fits(*home);
            address_fits(*careof);
            short_fits(*sequence);
            moment_fits(*end);
        }
        Entry::Row {
            home,
            binding,
            careof,
            sequence,
            end,
            kept_until,
            ..
        } => {
            address_fits(*home);
            byte_fits(*binding);
            address_fits(*careof);
            short_fits(*sequence);
            moment_fits(*end);
            moment_fits(*kept_until);
        }
        _ => {}
    }
}

/// A law of entries on what becomes of updates: their numbers fit their bits.
fn update_widths(entry: &Entry)
    ensures { HasUpdateWidths entry.now }
{
    match entry {
        Entry::Accepted {
            number,
            home,
            binding,
            careof,
            sequence,
            end,
            home_index,
            careof_index,
            ..
        } => {
            number_fits(*number);
            address_fits(*home);
            byte_fits(*binding);
            address_fits(*careof);
            short_fits(*sequence);
            moment_fits(*end);
            short_fits(*home_index);
            some_short_fits(*careof_index);
        }
        Entry::Origin { hot, cot, update } => {
            number_fits(*hot);
            some_number_fits(*cot);
            number_fits(*update);
        }
        Entry::Denied { number, status, .. } => {
            number_fits(*number);
            byte_fits(*status);
        }
        _ => {}
    }
}

/// A law: each number of an entry, but the cause of a `forged`, fits its bits, and its packets, data and tokens are of bytes.
pub fn widths(entry: &Entry)
    ensures { HasWidths entry.now }
{
    place_widths(entry);
    packet_widths(entry);
    mobile_widths(entry);
    row_widths(entry);
    update_widths(entry);
}
