ghost use Rattle.std.specs.Prelude.{◌≡◌, ◌<◌, length, option_map, slice_get, Some};
ghost use Rattle.mip_links.specs.Table.{Post, fate_of, link_of, destination_in};
ghost use Rattle.mip_history.specs.Delivery.{other_link};
ghost use Rattle.mip_engine.specs.Arrivals.{arrival_seen};

use crate::header::DESTINATION;
use mip_links::{Delivery, Net};
use mip_words::{Address, LinkId, Shield};

/// A packet that is taken from the network: what becomes of it.
#[derive(Clone, Copy)]
pub struct Arrival {
    pub delivery: Delivery,
    /// The link that it comes to, where that is another one than it was sent from.
    pub link: Option<LinkId>,
    pub shield: Option<Shield>,
}

/// Where a packet comes to that is delivered.
pub(crate) fn arrival_of(net: &Net, number: u64, delivery: Delivery) -> Arrival
    requires { number < length net.now.posts }
    ensures { (post : Post) → slice_get net.now.posts number ≡ Some post
        → arrival_seen result
        ≡ record { delivery = fate_of delivery; link = other_link (link_of net.now.links (destination_in post.packet)) post.from; shield = post.shield } }
{
    let Some(flight) = net.flight(number) else {
        unreachable!();
    };
    let link = arrival_link(net, number, flight.from);
    Arrival {
        delivery,
        link,
        shield: flight.shield,
    }
}

/// The link that a packet comes to, where that is another one than it was sent from.
fn arrival_link(net: &Net, number: u64, from: LinkId) -> Option<LinkId>
    requires { number < length net.now.posts }
    ensures { (post : Post) → slice_get net.now.posts number ≡ Some post
        → option_map (λ l. l.0) result ≡ other_link (link_of net.now.links (destination_in post.packet)) from.0 }
{
    let Some(packet) = net.packet(number) else {
        unreachable!();
    };
    let link = net.link_of(Address::at(packet, DESTINATION))?;
    if link.0 == from.0 { None } else { Some(link) }
}
