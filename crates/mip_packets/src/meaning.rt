//! What a packet says.

ghost use Rattle.std.specs.Prelude.{◌≡◌, slice_index};
ghost use Rattle.mip_ipv6.specs.Packet.{packet as tree, source_of};
ghost use Rattle.mip_mobhdr.specs.OptionValues.{values};
ghost use Rattle.mip_packets.specs.Says.{carried, carried_of, is_telling, says, update_said};

use crate::carried::Carried;
use crate::inner::{innermost, message_in};
use crate::test_kind::TestKind;
use crate::update_identity::UpdateIdentity;
use mip_ipv6::PacketRef;
use mip_mobhdr::{Message, Options};

/// An update, where it has an authenticator.
fn update<'a>(packet: &PacketRef<'a>, options: &Options<'a>) -> Carried<'a>
    ensures { carried_of result
        ≡ update_said packet.now.head.source (source_of packet.now.head) packet.now.body.now (values options.now)
        options.now.authorization }
{
    match options.authorization {
        Some(authenticator) => Carried::Update(UpdateIdentity {
            home: packet.head.sender(),
            careof: options.alternate.unwrap_or(packet.head.source),
            body: packet.body,
            authenticator,
        }),
        None => Carried::Other,
    }
}

/// Whether the third byte of a body, which is the type of a message, is that of a test or an update.
fn is_telling(body: &[u8]) -> bool
    ensures { result ≡ is_telling (slice_index body.now 2) }
{
    match body.get(2) {
        Some(kind) => matches!(*kind, 3 | 4 | 5),
        None => false,
    }
}

/// What a packet says whose body is no packet. A message of another type is not read.
#[tactic(auto, unfolding(crate::specs::Says::says), using(crate::proofs::Silences::silent))]
pub fn saying<'a>(packet: &PacketRef<'a>) -> Carried<'a>
    ensures { carried_of result ≡ says (tree packet.now) }
{
    if !is_telling(packet.body) {
        return Carried::Other;
    }
    match message_in(packet) {
        Some(Message::HomeTest { index, token, .. }) => Carried::Test {
            kind: TestKind::Home,
            index,
            token,
            destination: packet.head.destination,
        },
        Some(Message::CareofTest { index, token, .. }) => Carried::Test {
            kind: TestKind::Careof,
            index,
            token,
            destination: packet.head.destination,
        },
        Some(Message::Update { options, .. }) => update(packet, &options),
        _ => Carried::Other,
    }
}

/// What bytes say: what the innermost packet does.
#[tactic(auto, unfolding(crate::specs::Says::carried))]
pub fn carried_in(bytes: &[u8]) -> Carried<'_>
    ensures { carried_of result ≡ carried bytes.now }
{
    match innermost(bytes) {
        Some(packet) => saying(&packet),
        None => Carried::Other,
    }
}
