//! The updates of outsiders.

ghost use Rattle.std.specs.Prelude.{◌≡◌, ◌<◌, ◌≤◌, length, IfOk, IfSome, option_map, Some};
ghost use Rattle.mip_mobhdr.specs.Said.{said_plain};
ghost use Rattle.mip_mobhdr.specs.Spelling.{HasNumber};
ghost use Rattle.mip_rules_mobile.specs.Sendings.{number_option};
ghost use Rattle.mip_packets.specs.Authenticated.{authenticated_packet};
ghost use Rattle.mip_history.specs.Outsiders.{bind_head, bind_message, bind_packet, unless_same};
ghost use Rattle.mip_replay.specs.Forged as seen;

use crate::binding::Binding;
use crate::told::Told;
use mip_ipv6::Head;
use mip_mobhdr::{Indices, OptionSet, Plain};
use mip_packets::{node_head, write_authenticated_packet};
use mip_tokens::{Kbm, PreparedKbm};
use mip_words::protocol::MOBILITY_HEADER;
use mip_words::{Address, Bytes, Memory};
use std::alloc::Global;

fn unless_same(address: Address, source: Address) -> Option<Address>
    ensures { result ≡ unless_same address source }
{
    if address.0 == source.0 {
        None
    } else {
        Some(address)
    }
}

/// The head of the update, with a Home Address option where the home address is not the source.
fn head(binding: Binding) -> Head
    ensures { result ≡ bind_head (seen.binding binding) }
{
    let home = unless_same(binding.home, binding.source);
    node_head(binding.source, binding.peer, None, home, MOBILITY_HEADER)
}

/// The Binding Number by which a number is asked for: none asks for 0.
fn number_option(binding: Binding) -> Option<u8>
    ensures value { result ≡ number_option binding.number }
    ensures few { IfSome result (λ n. n < 8) }
{
    if binding.number == 0 {
        None
    } else {
        Some(binding.number)
    }
}

/// The update (RFC 6275 section 6.1.7), with an Alternate Care-of Address where the care-of address is not the source, and a
/// Binding Number where it is not 0.
fn message(binding: Binding, indices: Indices) -> Plain
    ensures value { said_plain result ≡ bind_message (seen.binding binding) indices.home indices.careof }
    ensures number { HasNumber (said_plain result) }
{
    Plain::Update {
        sequence: binding.sequence,
        ack: true,
        home: false,
        local: false,
        key: false,
        lifetime: binding.lifetime,
        options: OptionSet {
            advice: None,
            alternate: unless_same(binding.careof, binding.source),
            nonces: Some(indices),
            number: number_option(binding),
            authorization: None,
        },
    }
}

/// The update under a key.
#[tactic(auto, using(crate::proofs::ForgingLaws::bind_plain))]
fn authenticated_packet(
    alloc: Global,
    binding: Binding,
    indices: Indices,
    kbm: Kbm,
    careof: Address,
) -> Result<Bytes, Memory>
    ensures is { IfOk result (λ b. b ≡
        authenticated_packet (bind_head (seen.binding binding)) kbm.0 careof binding.peer (bind_message (seen.binding binding) indices.home indices.careof)) }
    ensures long { IfOk result (λ b. 40 ≤ length b) }
{
    let head = head(binding);
    let message = message(binding, indices);
    write_authenticated_packet(
        alloc,
        &head,
        &message,
        &PreparedKbm::new(kbm),
        careof,
        binding.peer,
    )
}

/// The update with the tokens that were told: with a home token alone it ends a binding.
pub(crate) fn bind_packet(
    alloc: Global,
    binding: Binding,
    home: Told,
    careof: Option<Told>,
) -> Result<Bytes, Memory>
    ensures is { IfOk result (λ b. b ≡ bind_packet (seen.binding binding) (seen.told home) (option_map seen.told careof)) }
    ensures long { IfOk result (λ b. 40 ≤ length b) }
{
    match careof {
        None => {
            let indices = Indices {
                home: home.index,
                careof: 0,
            };
            let kbm = Kbm::home(home.token);
            authenticated_packet(alloc, binding, indices, kbm, binding.home)
        }
        Some(careof) => {
            let indices = Indices {
                home: home.index,
                careof: careof.index,
            };
            let kbm = Kbm::both(home.token, careof.token);
            authenticated_packet(alloc, binding, indices, kbm, binding.careof)
        }
    }
}
