//! The network of a generated schedule.

ghost use Rattle.std.specs.Prelude.{◌≡◌, IfOk};
ghost use Rattle.mip_make.specs.Network as networks;

use mip_schedule::{Declaration, Declarations, Name};
use mip_words::{Address, LinkId, Memory, NodeId, Prefix};
use std::alloc::Global;

// The nodes, in the order of their declaration.
const AGENT: NodeId = NodeId(0);

pub const CORRESPONDENT: NodeId = NodeId(1);

pub const FIRST: NodeId = NodeId(2);

pub const SECOND: NodeId = NodeId(3);

const AGENT_ADDRESS: Address = Address(0x2001_0db8_0001_0000_0000_0000_0000_0001);

pub const CORRESPONDENT_ADDRESS: Address = Address(0x2001_0db8_0002_0000_0000_0000_0000_0002);

pub const FIRST_HOME: Address = Address(0x2001_0db8_0001_0000_0000_0000_0000_0077);

pub const SECOND_HOME: Address = Address(0x2001_0db8_0001_0000_0000_0000_0000_0078);

/// A name of one letter or two.
fn named(length: u8, first: u8, second: u8) -> Name
    ensures { result ≡ networks.name_of length first second }
{
    Name {
        length,
        letters: [first, second, 0, 0, 0, 0, 0, 0],
    }
}

fn link(digit: u8, prefix: u64) -> Declaration
    ensures { result ≡ networks.numbered digit prefix }
{
    Declaration::Link {
        name: named(2, b'n', digit),
        prefix: Prefix(prefix),
    }
}

/// Some node's home agent.
fn agent() -> Declaration
    ensures { result ≡ networks.agent }
{
    Declaration::Agent {
        name: named(1, b'g', 0),
        link: LinkId(0),
        address: AGENT_ADDRESS,
        preference: 10,
        life: 1800,
        room: 16,
    }
}

fn correspondent() -> Declaration
    ensures { result ≡ networks.correspondent }
{
    Declaration::Correspondent {
        name: named(1, b'c', 0),
        link: LinkId(1),
        address: CORRESPONDENT_ADDRESS,
        room: 2,
    }
}

fn first_mobile() -> Declaration
    ensures { result ≡ networks.first_mobile }
{
    Declaration::Mobile {
        name: named(1, b'm', 0),
        link: LinkId(0),
        address: FIRST_HOME,
        agent: Some(AGENT),
    }
}

fn second_mobile() -> Declaration
    ensures { result ≡ networks.second_mobile }
{
    Declaration::Mobile {
        name: named(2, b'm', b'2'),
        link: LinkId(0),
        address: SECOND_HOME,
        agent: Some(AGENT),
    }
}

fn serves(mobile: NodeId) -> Declaration
    ensures { result ≡ networks.serves mobile }
{
    Declaration::Serve {
        agent: AGENT,
        mobile,
    }
}

fn outsider() -> Declaration
    ensures { result ≡ networks.outsider }
{
    Declaration::Outsider {
        name: named(1, b'o', 0),
    }
}

fn collected(alloc: Global, declarations: &[Declaration]) -> Result<Declarations, Memory>
    ensures { IfOk result (λ ds. ds ≡ declarations.now) }
{
    let mut all = Declarations::new(alloc);
    for declaration in declarations {
        all.push(*declaration)?;
    }
    Ok(all)
}

/// The declarations, in their order.
#[tactic(auto, unfolding(crate::specs::Network::network))]
pub fn network(alloc: Global) -> Result<Declarations, Memory>
    ensures { IfOk result (λ ds. ds ≡ networks.network) }
{
    collected(
        alloc,
        &[
            link(b'1', 0x2001_0db8_0001_0000),
            link(b'2', 0x2001_0db8_0002_0000),
            link(b'3', 0x2001_0db8_0003_0000),
            agent(),
            correspondent(),
            first_mobile(),
            second_mobile(),
            serves(FIRST),
            serves(SECOND),
            outsider(),
        ],
    )
}
