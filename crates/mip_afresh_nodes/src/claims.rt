//! What the place of a node answers to a claim of an address.

ghost use Rattle.std.specs.Prelude.{◌≡◌, None, Some};
ghost use Rattle.mip_outside.specs.Places.{claim_of, claim_in};
ghost use Rattle.mip_rules_agent.specs.Calls.{home_in, claim_for};
ghost use Rattle.mip_ipv6.specs.Reading.{packet_of};
ghost use Rattle.mip_history.specs.Questions.{holder_in};
ghost use Rattle.mip_history.specs.Knowing.{other_than, around_in};

use mip_afresh::Telling;
use mip_ipv6::read_packet;
use mip_outside::Claim;
use mip_words::{Address, NodeId};

/// Who holds an address besides a node.
fn other_than(node: NodeId, holder: Option<u8>) -> Option<u8>
    ensures { result ≡ other_than node.0 holder }
{
    match holder {
        Some(by) if by != node.0 => Some(by),
        _ => None,
    }
}

/// The answer to a claim, given who else holds the address and whether it is the node's home.
fn claim_of(holder: Option<u8>, at_home: bool) -> Claim
    ensures { result ≡ claim_of holder at_home }
{
    match holder {
        None => Claim::Held,
        Some(_) if at_home => Claim::Waiting,
        Some(by) => Claim::Taken { by },
    }
}

/// What is answered to a mobile with this home, of an address.
pub(crate) fn claim_by_mobile(
    telling: &Telling,
    node: NodeId,
    home: Address,
    address: Address,
) -> Claim
    ensures { result ≡ claim_in (around_in telling.now.run node.0 (Some home.0)) address.0 }
{
    let other = other_than(node, telling.holder(address));
    claim_of(other, home.0 == address.0)
}

/// The home address of a packet: its Home Address option, else its source.
fn home_in(packet: &[u8]) -> Address
    ensures { result.0 ≡ home_in (packet_of packet.now) }
{
    match read_packet(packet) {
        Ok(packet) => packet.head.sender(),
        Err(_) => Address(0),
    }
}

/// What is answered to a home agent, of the home address of a packet.
pub(crate) fn claim_by_agent(telling: &Telling, node: NodeId, packet: &[u8]) -> Claim
    ensures { result ≡ claim_for (around_in telling.now.run node.0 None) packet.now }
{
    let other = other_than(node, telling.holder(home_in(packet)));
    claim_of(other, false)
}
