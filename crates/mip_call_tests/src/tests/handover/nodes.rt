use super::stop::Stop;
use super::world::{Arrival, World};
use crate::tests::given::{
    AGENT, AGENT_ADDRESS, HOME, HOME_LINK, PEER, PEER_ADDRESS, PEER_LINK, secrets,
};
use mip_correspondent::Correspondent;
use mip_homeagent::HomeAgent;
use mip_roles::NetPlace;
use mip_words::{Address, Moment};
use std::alloc::Global;
use std::marker::Model;

/// How long data may be.
pub const LONGEST: usize = 512;

/// The agent and the peer of a mobile, at moment 0.
#[derive(Drop)]
pub struct Nodes {
    agent: HomeAgent,
    peer: Correspondent,
}

impl Model for Nodes {
    ghost use Rattle.std.specs.Prelude.{◌≡◌};

    ghost Value = { Unit {0} };

    ghost view = { λ _. tt };

    ghost invariant = { λ n. (n.agent.known.last ≡ 0) × (n.peer.known.last.0 ≡ 0) };
}

impl Nodes {
    pub fn new(alloc: Global) -> Result<Nodes, Stop> {
        Ok(Nodes {
            agent: HomeAgent::new(alloc, AGENT_ADDRESS, 10, 1_800, 16, &[HOME])?,
            peer: Correspondent::new(alloc, PEER_ADDRESS, secrets(PEER), 2, 1)?,
        })
    }

    /// The agent takes a packet.
    #[tactic(auto, using(crate::proofs::Rooms::room_everywhere))]
    pub fn agent_takes(
        &mut self,
        alloc: Global,
        world: &mut World,
        arrival: &Arrival,
    ) -> Result<(), Stop> {
        let mut place = NetPlace::new(&world.net, AGENT.0, None);
        let packet = arrival.packet.as_slice();
        let answers = self.agent.take(
            alloc,
            &mut place,
            Moment(0),
            arrival.number,
            arrival.shield,
            packet,
        )?;
        world.answer(AGENT, HOME_LINK, answers)
    }

    /// The peer takes a packet.
    pub fn peer_takes(
        &mut self,
        alloc: Global,
        world: &mut World,
        arrival: &Arrival,
    ) -> Result<(), Stop> {
        let packet = arrival.packet.as_slice();
        let answers = self
            .peer
            .take(alloc, Moment(0), arrival.number, arrival.shield, packet)?;
        world.answer(PEER, PEER_LINK, answers)
    }

    /// The peer sends data of protocol 253, which is kept for trials (RFC 3692).
    pub fn peer_sends(
        &mut self,
        alloc: Global,
        world: &mut World,
        to: Address,
        payload: &[u8],
    ) -> Result<(), Stop> {
        if payload.len() > LONGEST {
            return Err(Stop::Unknown);
        }
        let answers = self.peer.send(alloc, Moment(0), to, 253, payload)?;
        world.answer(PEER, PEER_LINK, answers)
    }
}
