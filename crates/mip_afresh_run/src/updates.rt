//! The updates that outsiders post (RFC 6275 section 6.1.7).

ghost use Rattle.std.specs.Prelude.{◌≡◌, ◌<◌, ◌≤◌, length, IsTrue, IfOk, IfSome, option_map};
ghost use Rattle.mip_ipv6.specs.Packet.{is_plain};
ghost use Rattle.mip_mobhdr.specs.Said.{said_plain};
ghost use Rattle.mip_mobhdr.specs.Spelling.{HasNumber};
ghost use Rattle.mip_packets.specs.Authenticated.{authenticated_packet};
ghost use Rattle.mip_rules_mobile.specs.Sendings.{number_option};
ghost use Rattle.mip_history.specs.Outsiders.{bind_head, bind_message, bind_packet, unless_same};
ghost use Rattle.mip_afresh_run.specs.Forged.{binding_seen, told_seen};

use crate::binding::Binding;
use crate::told::Told;
use mip_ipv6::Head;
use mip_mobhdr::{Indices, OptionSet, Plain};
use mip_packets::{PreparedKbm, node_head, write_authenticated_packet};
use mip_tokens::Kbm;
use mip_words::protocol::MOBILITY_HEADER;
use mip_words::{Address, Bytes, Memory};
use std::alloc::Global;

/// An address is named where it is not the source.
fn unless_same(address: Address, source: Address) -> Option<Address>
    ensures { result ≡ unless_same address source }
{
    (address.0 != source.0).then_some(address)
}

/// The Binding Number by which a number is asked for: none asks for 0.
fn number_option(binding: &Binding) -> Option<u8>
    ensures value { result ≡ number_option binding.now.number }
    ensures few { IfSome result (λ n. n < 8) }
{
    (binding.number != 0).then_some(binding.number)
}

/// The head, with a Home Address option where the home address is not the source.
#[tactic(auto, using(crate::proofs::ForgingLaws::bind_plain))]
fn head(binding: &Binding) -> Head
    ensures value { result ≡ bind_head (binding_seen binding.now) }
    ensures plain { IsTrue (is_plain result) }
{
    let ends = binding.ends;
    let home = unless_same(ends.home, ends.source);
    node_head(ends.source, ends.peer, None, home, MOBILITY_HEADER)
}

/// The message, with an Alternate Care-of Address where the care-of address is not the source, and a Binding Number where it is
/// not 0.
fn message(binding: &Binding, indices: Indices) -> Plain
    ensures value { said_plain result ≡ bind_message (binding_seen binding.now) indices.home indices.careof }
    ensures number { HasNumber (said_plain result) }
{
    Plain::Update {
        sequence: binding.sequence,
        ack: true,
        home: false,
        local: false,
        key: false,
        lifetime: binding.lifetime,
        options: OptionSet {
            advice: None,
            alternate: unless_same(binding.ends.careof, binding.ends.source),
            nonces: Some(indices),
            number: number_option(binding),
            authorization: None,
        },
    }
}

/// The update under a key, which binds a home to this care-of address.
fn authenticated(
    alloc: Global,
    binding: &Binding,
    indices: Indices,
    kbm: Kbm,
    careof: Address,
) -> Result<Bytes, Memory>
    ensures is { IfOk result (λ b. b ≡
        authenticated_packet (bind_head (binding_seen binding.now)) kbm.0 careof binding.now.ends.peer (bind_message (binding_seen binding.now) indices.home indices.careof)) }
    ensures long { IfOk result (λ b. 40 ≤ length b) }
{
    let head = head(binding);
    let message = message(binding, indices);
    let kbm = PreparedKbm::new(kbm);
    write_authenticated_packet(alloc, &head, &message, &kbm, careof, binding.ends.peer)
}

/// The update with the tokens that were told: with a home token alone it ends a binding.
pub(crate) fn bind_packet(
    alloc: Global,
    binding: &Binding,
    home: Told,
    careof: Option<Told>,
) -> Result<Bytes, Memory>
    ensures is { IfOk result (λ b. b ≡ bind_packet (binding_seen binding.now) (told_seen home) (option_map told_seen careof)) }
    ensures long { IfOk result (λ b. 40 ≤ length b) }
{
    match careof {
        Some(careof) => {
            let indices = Indices {
                home: home.index,
                careof: careof.index,
            };
            let kbm = Kbm::both(home.token, careof.token);
            authenticated(alloc, binding, indices, kbm, binding.ends.careof)
        }
        None => {
            let indices = Indices {
                home: home.index,
                careof: 0,
            };
            let kbm = Kbm::home(home.token);
            authenticated(alloc, binding, indices, kbm, binding.ends.home)
        }
    }
}
