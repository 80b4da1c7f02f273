//! Who there is in a handover, and bytes as they are stored.

use mip_nonce::Secrets;
use mip_words::{Address, Bytes, LinkId, Memory, NodeId, Prefix, hex_exact};
use std::alloc::Global;

/// The handover, as text.
pub const HANDOVER: &[u8] =
    b"mip 1\nseed 000102030405060708090a0b0c0d0e0f101112131415161718191a1b1c1d1e1f\nstart 0\nlink n1 20010db800010000\nlink n2 20010db800020000\nlink n3 20010db800030000\nagent g n1 20010db8000100000000000000000001 10 1800 16\ncorrespondent c n2 20010db8000200000000000000000002 2\nmobile m n1 20010db8000100000000000000000077 g\nserve g m\noutsider o\nrun\nmove m n3\nadvertise n3\ncarry 10\ndata c 20010db8000100000000000000000077 253 aa\ncarry 10\ndata m 20010db8000200000000000000000002 253 bb\ndeliver 12\ndata c 20010db8000100000000000000000077 253 cc\ndeliver 13\n";

/// The prefixes of its links, in order of declaration.
pub const LINKS: [Prefix; 3] = [
    Prefix(0x2001_0db8_0001_0000),
    Prefix(0x2001_0db8_0002_0000),
    Prefix(0x2001_0db8_0003_0000),
];

pub const HOME_LINK: LinkId = LinkId(0);

pub const PEER_LINK: LinkId = LinkId(1);

pub const AGENT: NodeId = NodeId(0);

pub const PEER: NodeId = NodeId(1);

pub const MOBILE: NodeId = NodeId(2);

pub const AGENT_ADDRESS: Address = Address(0x2001_0db8_0001_0000_0000_0000_0000_0001);

pub const PEER_ADDRESS: Address = Address(0x2001_0db8_0002_0000_0000_0000_0000_0002);

pub const HOME: Address = Address(0x2001_0db8_0001_0000_0000_0000_0000_0077);

pub const CAREOF: Address = Address(0x2001_0db8_0003_0000_0000_0000_0000_0077);

/// The secrets of a node's first life.
pub fn secrets(node: NodeId) -> Secrets {
    let mut seed = [0; 32];
    for (place, byte) in seed.iter_mut().enumerate() {
        *byte = place as u8;
    }
    Secrets::new(&seed, node, 0)
}

/// The bytes of hexadecimal digits: 256 at most.
pub fn bytes_of(alloc: Global, digits: &[u8]) -> Result<Bytes, Memory> {
    let mut room = [0; 256];
    let count = digits.len() / 2;
    if count > 256 || !hex_exact(digits, &mut room[..count]) {
        return Err(Memory);
    }
    Bytes::copy(alloc, &room[..count])
}
