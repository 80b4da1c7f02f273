//! What becomes of a packet that is delivered.

ghost use Rattle.std.specs.Prelude.{◌≡◌, ◌==◌, ◌&&◌, not, nat_lt, Some};
ghost use Rattle.mip_ipv6.specs.Tunnel.{hop_of};
ghost use Rattle.mip_links.specs.Table.{destination_in, held_by, at_holder, at_link, delivery};
ghost use Rattle.mip_history.specs.Questions.{asked_in};
ghost use Rattle.mip_afresh.specs.Tellings.{post_seen};
ghost use Rattle.mip_afresh.specs.Fates.{fate_seen};

use crate::fate::Fate;
use crate::links::link_of;
use crate::packet_bytes::PacketBytes;
use crate::posted::Posted;
use crate::telling::Telling;
use mip_words::{Address, LinkId, NodeId, Shield, Why};

/// The number of the first outsider among the holders.
const FIRST_OUTSIDER: u8 = 32;

/// The destination of a packet (RFC 8200 section 3).
pub(crate) fn destination_in(packet: PacketBytes<'_>) -> Address
    ensures { result.0 ≡ destination_in packet.entry.bytes.now }
{
    Address::at(packet.bytes, 24)
}

/// Its hop limit.
fn hop_of(packet: PacketBytes<'_>) -> u8
    ensures { result ≡ hop_of packet.entry.bytes.now }
{
    packet.bytes[7]
}

/// The fate of a packet whose destination somebody holds, by the address that he claimed first.
fn held_by(shield: Option<Shield>, by: u8, declared: Option<Address>) -> Fate
    ensures { fate_seen result ≡ held_by shield by declared }
{
    match (shield, declared) {
        (None, _) if by < FIRST_OUTSIDER => Fate::Node(NodeId(by)),
        (None, _) => Fate::Outsider(by - FIRST_OUTSIDER),
        (Some(shield), Some(own)) if by < FIRST_OUTSIDER && own.0 == shield.to.0 => {
            Fate::Node(NodeId(by))
        }
        (Some(_), _) => Fate::Gone(Why::Shield),
    }
}

/// It comes to another link, and its hop limit is used up.
fn is_spent(post: &Posted, link: LinkId) -> bool
    ensures { result ≡ (not (link.0 == post.now.from.0) && nat_lt (hop_of post.now.packet) 2) }
{
    link.0 != post.from.0 && hop_of(post.bytes()) < 2
}

impl Telling {
    /// The fate of a packet by the holder of its destination.
    fn at_holder(&self, shield: Option<Shield>, holder: Option<u8>) -> Fate
        ensures { fate_seen result ≡ at_holder (asked_in self.now.setup self.now.run.past) shield holder }
    {
        match holder {
            Some(by) => held_by(shield, by, self.declared(by)),
            None => Fate::Gone(Why::NoHolder),
        }
    }

    /// The fate of a packet that comes to a link.
    fn at_link(&self, post: &Posted, link: LinkId) -> Fate
        ensures { fate_seen result ≡ at_link (asked_in self.now.setup self.now.run.past) (post_seen post.now) (Some link.0) }
    {
        if is_spent(post, link) {
            return Fate::Gone(Why::Hop);
        }
        let destination = destination_in(post.bytes());
        self.at_holder(post.shield, self.holder(destination))
    }

    /// The fate of a packet of the pool: no link, the hop limit, its holder.
    pub(crate) fn fate_of(&self, post: &Posted) -> Fate
        ensures { fate_seen result ≡ delivery (asked_in self.now.setup self.now.run.past) (Some (post_seen post.now)) }
    {
        let destination = destination_in(post.bytes());
        match link_of(self.setting.few_links(), destination) {
            Some(link) => self.at_link(post, link),
            None => Fate::Gone(Why::NoLink),
        }
    }
}
