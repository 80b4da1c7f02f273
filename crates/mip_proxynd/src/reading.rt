ghost use Rattle.std.specs.Prelude.{◌≡◌, ◌≤◌, length, Ok, IfOk};
ghost use Rattle.mip_words.specs.Steps.{Gives};
ghost use Rattle.mip_proxynd.specs.declared.neighbour.Neighbour as said;
ghost use Rattle.mip_proxynd.specs.Reading.{kind_of, neighbour_of};
ghost use Rattle.mip_proxynd.specs.Spelling.{IsNeighbour};

use crate::area::read_area;
use crate::fault::NeighbourFault;
use crate::fields::{ADVERT, SOLICIT, is_group, message_of};
use crate::neighbour::Neighbour;
use mip_ipv6::checksum_holds;
use mip_words::Address;
use mip_words::protocol::ICMPV6;

/// The hop limit of a packet that passed no router.
pub(crate) const NEAR: u8 = 255;

/// The type of a message, after all tests that come before its options.
#[tactic(auto, unfolding(crate::specs::Reading::kind_of))]
fn checked(
    source: Address,
    destination: Address,
    hop: u8,
    body: &[u8],
) -> Result<u8, NeighbourFault>
    requires { length body.now ≤ 65535 }
    ensures exact { Gives (λ t. t) result (kind_of source destination hop body.now) }
    ensures long { IfOk result (λ _. 24 ≤ length body.now) }
{
    if hop != NEAR {
        return Err(NeighbourFault::Hop);
    }
    if body.len() < 24 {
        return Err(NeighbourFault::Short);
    }
    if !checksum_holds(source, destination, ICMPV6, body) {
        return Err(NeighbourFault::Checksum);
    }
    let kind = body[0];
    let code = body[1];
    if (kind != SOLICIT && kind != ADVERT) || code != 0 {
        return Err(NeighbourFault::Unknown { kind, code });
    }
    if is_group(Address::at(body, 8)) {
        return Err(NeighbourFault::Target);
    }
    Ok(kind)
}

/// What the message says, by all tests in their order.
#[tactic(auto, unfolding(crate::specs::Reading::neighbour_of))]
fn tested(
    source: Address,
    destination: Address,
    hop: u8,
    body: &[u8],
) -> Result<Neighbour, NeighbourFault>
    requires { length body.now ≤ 65535 }
    ensures { Gives (λ m. m) result (neighbour_of source destination hop body.now) }
{
    let kind = checked(source, destination, hop, body)?;
    let layers = read_area(body, 24)?;
    Ok(message_of(kind, body, layers))
}

/// What a neighbour message between these addresses says, which came in a packet with this hop limit
/// (RFC 4861 sections 7.1.1 and 7.1.2).
pub fn read_neighbour(
    source: Address,
    destination: Address,
    hop: u8,
    body: &[u8],
) -> Result<Neighbour, NeighbourFault>
    requires { length body.now ≤ 65535 }
    ensures found { IfOk result (λ m. IsNeighbour source destination hop m body.now) }
    ensures only { (m : said.Neighbour) → IsNeighbour source destination hop m body.now → result ≡ Ok m }
    ensures exact { Gives (λ m. m) result (neighbour_of source destination hop body.now) }
{
    tested(source, destination, hop, body)
}
