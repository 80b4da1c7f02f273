//! Writing a message.

ghost use Rattle.std.specs.Prelude.{◌≡◌, ◌+◌, ◌-◌, ◌/◌, ◌≤◌, ◌++◌, length, slice_set, Ok, IfOk};
ghost use Rattle.mip_ipv6.specs.Sum.{with_number_at, checksum_of};
ghost use Rattle.mip_mobhdr.specs.OptionValues.{set_values};
ghost use Rattle.mip_mobhdr.specs.Said.{said_plain};
ghost use Rattle.mip_mobhdr.specs.Reading.{message_of};
ghost use Rattle.mip_mobhdr.specs.Spelling.{IsMessage, type_of, options_said, field_bytes, unsummed, message_bytes, HasNumber};
ghost use Rattle.mip_mobhdr.specs.SpellingLaws.{front_bytes, HasWidths, WritesOptions};

use crate::acknowledgement::put_acknowledgement;
use crate::address_test::put_test;
use crate::binding_error::put_error;
use crate::front::Front;
use crate::message_bytes::MessageBytes;
use crate::option_set::OptionSet;
use crate::option_writing::write_options;
use crate::plain::Plain;
use crate::refresh::put_refresh;
use crate::test_init::put_init;
use crate::update::{put_update, update_flags};
use mip_ipv6::checksum;
use mip_words::{Address, Bytes, Memory};
use std::alloc::Global;

/// The canonical spelling of a message from `source` to `destination`, with its checksum.
pub fn write_message(
    alloc: Global,
    source: Address,
    destination: Address,
    message: &Plain,
) -> Result<Bytes, Memory>
    requires { HasNumber (said_plain message.now) }
    ensures ok { IfOk result (λ b. b ≡ message_bytes source destination (said_plain message.now)) }
    ensures spelled { IfOk result (IsMessage source destination (said_plain message.now)) }
    ensures read_back { IfOk result (λ b. message_of source destination b ≡ Ok (said_plain message.now)) }
{
    let bytes = spell_message(source, destination, message);
    Bytes::copy(alloc, bytes.as_slice())
}

/// The same in memory of its own value.
pub fn spell_message(source: Address, destination: Address, message: &Plain) -> MessageBytes
    requires { HasNumber (said_plain message.now) }
    ensures ok { result ≡ message_bytes source destination (said_plain message.now) }
    ensures spelled { IsMessage source destination (said_plain message.now) result }
    ensures read_back { message_of source destination result ≡ Ok (said_plain message.now) }
{
    let mut bytes = draft_of(message);
    put_sum(&mut bytes, source, destination);
    bytes
}

/// The message with zero for its checksum.
fn draft_of(message: &Plain) -> MessageBytes
    requires { HasNumber (said_plain message.now) }
    ensures draft { result ≡ unsummed (said_plain message.now) }
    ensures long { 8 ≤ length result }
    ensures fits { HasWidths (said_plain message.now) }
    ensures options { WritesOptions (said_plain message.now) }
{
    let mut out = front_of(message);
    write_options(&mut out, options_of(message));
    put_size(&mut out);
    out
}

/// What stands before the options, with zero for Header Len and checksum.
#[tactic(auto, using(crate::proofs::Canonical::field_short))]
fn front_of(message: &Plain) -> MessageBytes
    ensures front { result ≡ front_bytes (said_plain message.now) }
    ensures short { length result ≤ 24 }
    ensures fits { HasWidths (said_plain message.now) }
{
    put_fields(Front::new(kind_of(message)), message)
}

/// Appends the fields of the message, from byte 6 on.
fn put_fields(front: Front, message: &Plain) -> MessageBytes
    ensures ok { result ≡ front.bytes ++ field_bytes (said_plain message.now) }
    ensures fits { HasWidths (said_plain message.now) }
{
    match message {
        Plain::Refresh { .. } => put_refresh(front),
        Plain::HomeInit { cookie, .. } | Plain::CareofInit { cookie, .. } => put_init(
            front, *cookie,
        ),
        Plain::HomeTest {
            index,
            cookie,
            token,
            ..
        }
        | Plain::CareofTest {
            index,
            cookie,
            token,
            ..
        } => put_test(front, *index, *cookie, *token),
        Plain::Update {
            sequence,
            ack,
            home,
            local,
            key,
            lifetime,
            ..
        } => put_update(
            front,
            *sequence,
            update_flags(*ack, *home, *local, *key),
            *lifetime,
        ),
        Plain::Acknowledgement {
            status,
            key,
            sequence,
            lifetime,
            ..
        } => put_acknowledgement(front, *status, *key, *sequence, *lifetime),
        Plain::Error { status, home, .. } => put_error(front, *status, *home),
    }
}

/// The MH Type.
fn kind_of(message: &Plain) -> u8
    ensures { result ≡ type_of (said_plain message.now) }
{
    match message {
        Plain::Refresh { .. } => 0,
        Plain::HomeInit { .. } => 1,
        Plain::CareofInit { .. } => 2,
        Plain::HomeTest { .. } => 3,
        Plain::CareofTest { .. } => 4,
        Plain::Update { .. } => 5,
        Plain::Acknowledgement { .. } => 6,
        Plain::Error { .. } => 7,
    }
}

fn options_of(message: &Plain) -> &OptionSet
    ensures { set_values result.now ≡ options_said (said_plain message.now) }
{
    match message {
        Plain::Refresh { options } => options,
        Plain::HomeInit { options, .. } => options,
        Plain::CareofInit { options, .. } => options,
        Plain::HomeTest { options, .. } => options,
        Plain::CareofTest { options, .. } => options,
        Plain::Update { options, .. } => options,
        Plain::Acknowledgement { options, .. } => options,
        Plain::Error { options, .. } => options,
    }
}

/// Puts the Header Len in its place.
fn put_size(message: &mut MessageBytes)
    requires { 8 ≤ length message.old }
    ensures { message.new ≡ slice_set message.old 1 (length message.old / 8 - 1) }
{
    let size = (message.len() / 8 - 1) as u8;
    message.set(1, size);
}

/// Puts the checksum in its place.
fn put_sum(message: &mut MessageBytes, source: Address, destination: Address)
    requires { 8 ≤ length message.old }
    ensures { message.new ≡ with_number_at 4 (checksum_of source destination 135 message.old 4) message.old }
{
    let sum = checksum(source, destination, 135, message.as_slice(), 4);
    message.set_u16(4, sum);
}
