//! Reading a message.

ghost use Rattle.std.specs.Prelude.{◌+◌, ◌*◌, ◌≤◌, ◌<◌, length, Ok, IfOk};
ghost use Rattle.mip_words.specs.Steps.{Gives};
ghost use Rattle.mip_mobhdr.specs.Said.{Said, said, HasSpan};
ghost use Rattle.mip_mobhdr.specs.Reading.{least_of, type_in, fields_of, message_of};
ghost use Rattle.mip_mobhdr.specs.Spelling.{IsMessage};

use crate::acknowledgement::acknowledgement;
use crate::address_test::{careof_test, home_test};
use crate::binding_error::binding_error;
use crate::fault::Fault;
use crate::least::least_len;
use crate::message::Message;
use crate::refresh::refresh;
use crate::test_init::{careof_init, home_init};
use crate::update::read_update;
use mip_ipv6::checksum_holds;
use mip_words::Address;

/// The message in the body of a packet from `source` to `destination`: the home addresses where a Home
/// Address option or a routing header stands for them.
pub fn read_message(
    source: Address,
    destination: Address,
    body: &[u8],
) -> Result<Message<'_>, Fault>
    ensures found { IfOk result (λ m. IsMessage source destination (said m) body.now) }
    ensures only { (m : Said) → IsMessage source destination m body.now → Gives said result (Ok m) }
    ensures exact { Gives said result (message_of source destination body.now) }
    // The bytes of the options are those from their place to the end of the message.
    ensures span { IfOk result (HasSpan body.now) }
{
    message_in(source, destination, body)
}

#[tactic(auto, unfolding(crate::specs::Reading::message_of))]
fn message_in(source: Address, destination: Address, body: &[u8]) -> Result<Message<'_>, Fault>
    ensures exact { Gives said result (message_of source destination body.now) }
    ensures span { IfOk result (HasSpan body.now) }
{
    let kind = kind_of(source, destination, body)?;
    fields(kind, body)
}

/// The type of the message, once everything before its fields has been tested.
#[tactic(auto, unfolding(crate::specs::Reading::type_in))]
fn kind_of(source: Address, destination: Address, body: &[u8]) -> Result<u8, Fault>
    ensures exact { Gives (λ kind. kind) result (type_in source destination body.now) }
    ensures known { IfOk result (λ kind. kind < 8) }
    ensures long { IfOk result (λ kind. 8 + 8 * least_of kind ≤ length body.now) }
{
    if body.len() < 8 || body.len() != 8 + 8 * body[1] as usize {
        return Err(Fault::Size);
    }
    if !checksum_holds(source, destination, 135, body) {
        return Err(Fault::Checksum);
    }
    let kind = body[2];
    if kind > 7 {
        return Err(Fault::Unknown(kind));
    }
    if body[0] != 59 {
        return Err(Fault::Proto);
    }
    if body[1] < least_len(kind) {
        return Err(Fault::HeaderLen);
    }
    Ok(kind)
}

#[tactic(auto, unfolding(crate::specs::Reading::fields_of))]
fn fields(kind: u8, body: &[u8]) -> Result<Message<'_>, Fault>
    requires { 8 + 8 * least_of kind ≤ length body.now }
    ensures exact { Gives said result (fields_of kind body.now) }
    ensures span { IfOk result (HasSpan body.now) }
{
    match kind {
        0 => refresh(body),
        1 => home_init(body),
        2 => careof_init(body),
        3 => home_test(body),
        4 => careof_test(body),
        5 => read_update(body),
        6 => acknowledgement(body),
        _ => binding_error(body),
    }
}
