use super::stop::Stop;
use crate::tests::given::{AGENT, AGENT_ADDRESS, HOME, LINKS, MOBILE, PEER, PEER_ADDRESS};
use mip_entries::{Answer, Answers, Entry, History};
use mip_ipv6::lower;
use mip_links::{ClaimFault, Delivery, Net};
use mip_words::{Address, Bytes, HERE, Holder, LinkId, Memory, NodeId, Shield};
use std::alloc::Global;

/// The place of the destination in a packet (RFC 8200 section 3).
const DESTINATION: usize = 24;

/// The network, and what has happened.
#[derive(Drop)]
pub struct World {
    pub net: Net,
    pub history: History,
}

/// A packet that comes to a node.
#[derive(Drop)]
pub struct Arrival {
    pub number: u64,
    pub node: NodeId,
    pub shield: Option<Shield>,
    pub packet: Bytes,
}

impl World {
    /// Each node has its address, and the agent that of all agents of its link.
    pub fn open(alloc: Global) -> Result<World, Memory> {
        let mut world = World {
            net: Net::new(alloc, &LINKS)?,
            history: History::new(alloc)?,
        };
        world.claim(AGENT, AGENT_ADDRESS)?;
        world.claim(AGENT, AGENT_ADDRESS.prefix().anycast())?;
        world.claim(PEER, PEER_ADDRESS)?;
        world.claim(MOBILE, HOME)?;
        Ok(world)
    }

    pub fn note(&mut self, entry: Entry) -> Result<(), Memory> {
        self.history.push(entry)
    }

    /// A node has an address from here on, or somebody else has it.
    fn claim(&mut self, node: NodeId, address: Address) -> Result<(), Memory> {
        let (Some(link), true) = (self.net.link_of(address), node.0 < 32) else {
            return self.note(Entry::Idle);
        };
        let who = node.0;
        match self.net.claim(Holder::Node(node), address) {
            Ok(()) => self.note(Entry::Claimed { who, link, address }),
            Err(ClaimFault::Taken { by }) => self.note(Entry::Taken {
                who,
                link,
                address,
                holder: by.place() as u8,
            }),
            Err(_) => Err(Memory),
        }
    }

    /// A node gives an address up.
    fn release(&mut self, node: NodeId, address: Address) -> Result<(), Memory> {
        let Some(link) = self.net.link_of(address) else {
            return self.note(Entry::Idle);
        };
        if !self.net.release(Holder::Node(node), address) {
            return self.note(Entry::Idle);
        }
        self.note(Entry::Released {
            who: node.0,
            link,
            address,
        })
    }

    /// A node sends a packet from a link.
    fn send(
        &mut self,
        node: NodeId,
        from: LinkId,
        shield: Option<Shield>,
        packet: Bytes,
    ) -> Result<(), Stop> {
        if packet.len() < 40 {
            return Err(Stop::Unknown);
        }
        let number = self.net.post(from, shield, packet.as_slice())?;
        self.note(Entry::Sent {
            number,
            node,
            shielded: shield.is_some(),
            packet,
        })?;
        Ok(())
    }

    /// A node leaves an entry.
    fn leave(&mut self, node: NodeId, entry: Entry) -> Result<(), Memory> {
        match entry {
            Entry::Claimed { address, .. } | Entry::Taken { address, .. } => {
                self.claim(node, address)
            }
            Entry::Released { address, .. } => self.release(node, address),
            entry => {
                let next = self.net.next();
                self.note(entry.named(node, HERE, next))
            }
        }
    }

    fn answer_one(&mut self, node: NodeId, from: LinkId, answer: Answer) -> Result<(), Stop> {
        match answer {
            Answer::Send { shield, packet } => self.send(node, from, shield, packet),
            Answer::Note(entry) => Ok(self.leave(node, entry)?),
        }
    }

    /// What a node answers from a link happens, in order.
    pub fn answer(&mut self, node: NodeId, from: LinkId, answers: Answers) -> Result<(), Stop> {
        for answer in answers.into_vec() {
            self.answer_one(node, from, answer)?;
        }
        Ok(())
    }

    /// A packet as it comes to its link: its hop limit is one less where that is another link than it was sent from.
    fn come(&self, alloc: Global, number: u64, from: LinkId) -> Result<Bytes, Stop> {
        let Some(packet) = self.net.packet(number) else {
            return Err(Stop::Unknown);
        };
        match self.net.link_of(Address::at(packet, DESTINATION)) {
            Some(link) if link != from => Ok(lower(alloc, packet)?),
            _ => Ok(Bytes::copy(alloc, packet)?),
        }
    }

    /// A packet of the pool comes to the node that holds its destination.
    pub fn deliver(&mut self, alloc: Global, number: u64) -> Result<Arrival, Stop> {
        let Delivery::Node(node) = self.net.deliver(number, false) else {
            return Err(Stop::Unknown);
        };
        let Some(flight) = self.net.flight(number) else {
            return Err(Stop::Unknown);
        };
        let packet = self.come(alloc, number, flight.from)?;
        self.note(Entry::Handed { number, node })?;
        Ok(Arrival {
            number,
            node,
            shield: flight.shield,
            packet,
        })
    }
}
