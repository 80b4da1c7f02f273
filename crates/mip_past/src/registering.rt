//! The agent of a mobile, also while it is not registered.

ghost use Rattle.std.specs.Prelude.{◌≡◌, None, Some, option_map};
ghost use Rattle.mip_ipv6.specs.Packet.{packet as tree};
ghost use Rattle.mip_ipv6.specs.Reading.{packet_of};
ghost use Rattle.mip_mobhdr.specs.Said.{said};
ghost use Rattle.mip_past.specs.Asking.{agent_of_at};
ghost use Rattle.mip_past.specs.Registering.{agent_asked, agent_by, packet_agent, sent_to, last_sent_to};

use crate::past::Past;
use mip_entries::Entry;
use mip_ipv6::{PacketRef, read_packet};
use mip_mobhdr::Message;
use mip_packets::message_in;
use mip_reception::{Registration, deletes, registration_of};
use mip_words::{Address, NodeId};

/// The agent that an update with this destination asks to register a home.
fn agent_asked(to: Address, registration: Option<Registration>) -> Option<Address>
    ensures { result ≡ agent_asked to registration }
{
    match registration {
        Some(asked) if asked.for_agent && !deletes(&asked) => Some(to),
        _ => None,
    }
}

/// The agent that a message in a packet asks.
fn agent_by(packet: &PacketRef<'_>, message: Option<Message<'_>>) -> Option<Address>
    ensures { result ≡ agent_by (tree packet.now) (option_map said message.entry) }
{
    match message {
        Some(message) => {
            let head = packet.head;
            agent_asked(
                head.destination,
                registration_of(head.source, head.home, &message),
            )
        }
        None => None,
    }
}

/// The agent that the bytes of a packet ask.
fn packet_agent(bytes: &[u8]) -> Option<Address>
    ensures { result ≡ packet_agent (packet_of bytes.now) }
{
    match read_packet(bytes) {
        Ok(packet) => agent_by(&packet, message_in(&packet)),
        Err(_) => None,
    }
}

/// What an entry says of where the mobile sent a home registration: to an agent, that there is none any more (`Some(None)`), or nothing
/// (`None`).
fn sent_to(entry: &Entry, mobile: NodeId) -> Option<Option<Address>>
    ensures { result ≡ sent_to mobile.0 entry.now }
{
    match entry {
        Entry::Sent {
            node,
            shielded,
            packet,
            ..
        } if mobile.0 == node.0 && *shielded => match packet_agent(packet.as_slice()) {
            Some(agent) => Some(Some(agent)),
            None => None,
        },
        Entry::Restarted { node } if mobile.0 == node.0 => Some(None),
        _ => None,
    }
}

/// The agent to which the mobile sent its last home registration in its present life.
fn last_sent_to(entries: &[Entry], mobile: NodeId) -> Option<Address>
    ensures { result ≡ last_sent_to entries.now mobile.0 }
{
    let mut agent = None;
    for entry in entries {
        match sent_to(entry, mobile) {
            Some(said) => agent = said,
            None => (),
        }
    }
    agent
}

impl Past<'_> {
    /// The agent of a mobile for tunnels, deregistrations and prefix messages: the one with which it is registered, else the one to
    /// which it sent its last home registration in its present life (RFC 6275 sections 11.3.1, 11.5.5 and 11.7.1).
    pub fn agent_of(&self, mobile: NodeId) -> Option<Address>
        ensures { result ≡ agent_of_at self.now mobile.0 }
    {
        match self.agent(mobile) {
            Some(agent) => Some(agent),
            None => last_sent_to(self.entries, mobile),
        }
    }
}
