//! The packets of return routability (RFC 6275 sections 6.1.7 and 11.7.2).

ghost use Rattle.std.specs.Prelude.{◌≡◌, ◌<◌, IfOk, IfSome, true, false};
ghost use Rattle.mip_mobhdr.specs.Said.{said_plain};
ghost use Rattle.mip_mobhdr.specs.Said.Said.{Update};
ghost use Rattle.mip_rules_mobile.specs.Sendings.{number_option, update_bytes, update_packet, with_indices};
ghost use Rattle.mip_mobile_routability.specs.Updates.{peer_update};

use crate::keyed_update::KeyedUpdate;
use mip_bulist::Made;
use mip_mobhdr::{OptionSet, Plain};
use mip_packets::{NO_OPTIONS, node_head, straight, write_authenticated_packet};
use mip_words::constants::MAX_RR_BINDING_LIFETIME;
use mip_words::protocol::MOBILITY_HEADER;
use mip_words::{Bytes, Memory};
use std::alloc::Global;

/// An update to a peer, under the key of its tests.
#[tactic(auto, unfolding(mip_rules_mobile::specs::Sendings::update_packet))]
pub fn write_update(alloc: Global, update: &KeyedUpdate<'_>) -> Result<Bytes, Memory>
    ensures { IfOk result (λ b. b ≡ update_packet (peer_update update.now)) }
{
    if update.made.careof.is_some() {
        write_binding(alloc, update)
    } else {
        write_deletion(alloc, update)
    }
}

/// An update that binds, from the care-of address and in the name of the home address, with its number.
fn write_binding(alloc: Global, update: &KeyedUpdate<'_>) -> Result<Bytes, Memory>
    ensures { IfOk result (λ b. b ≡ update_bytes (peer_update update.now) true) }
{
    let KeyedUpdate {
        home,
        source,
        peer,
        number,
        made,
        kbm,
    } = *update;
    let head = node_head(source, peer, None, Some(home), MOBILITY_HEADER);
    let message = update_of(made, number_option(number), MAX_RR_BINDING_LIFETIME);
    write_authenticated_packet(alloc, &head, &message, kbm, source, peer)
}

/// An update that deletes the binding, from home, whatever the number of the place.
fn write_deletion(alloc: Global, update: &KeyedUpdate<'_>) -> Result<Bytes, Memory>
    ensures { IfOk result (λ b. b ≡ update_bytes (peer_update update.now) false) }
{
    let head = straight(update.source, update.peer, MOBILITY_HEADER);
    let message = update_of(update.made, None, 0);
    write_authenticated_packet(
        alloc,
        &head,
        &message,
        update.kbm,
        update.source,
        update.peer,
    )
}

/// The Binding Number by which a number is asked for: none asks for 0.
fn number_option(number: u8) -> Option<u8>
    requires { number < 8 }
    ensures value { result ≡ number_option number }
    ensures few { IfSome result (λ n. n < 8) }
{
    if number == 0 { None } else { Some(number) }
}

/// The update with a lifetime, which asks for an acknowledgement and names the nonces of its tests.
fn update_of(made: &Made, number: Option<u8>, lifetime: u16) -> Plain
    ensures { said_plain result ≡ Update made.now.sequence true false false false lifetime (record (with_indices made.now) { number = number }) }
{
    Plain::Update {
        sequence: made.sequence,
        ack: true,
        home: false,
        local: false,
        key: false,
        lifetime,
        options: OptionSet {
            nonces: Some(made.indices),
            number,
            ..NO_OPTIONS
        },
    }
}
