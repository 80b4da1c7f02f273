ghost use Rattle.std.specs.Prelude.{◌≡◌};
ghost use Rattle.mip_c.specs.Packets.{fields_of, head_of, refused_fields};

use mip_c_words::addresses::{address_if, address_of, bytes_if_any};
use mip_ipv6::Head;

/// A packet's headers (RFC 8200 section 3, RFC 6275 sections 6.3 and 6.4).
#[repr(C)]
#[derive(Clone, Copy)]
pub struct PacketFields {
    pub source: [u8; 16],
    pub destination: [u8; 16],
    /// The hop limit.
    pub hop: u8,
    /// The traffic class.
    pub traffic_class: u8,
    /// The flow label, of 20 bits.
    pub flow: u32,
    /// Whether there is a routing header of type 2.
    pub has_route: bool,
    /// The home address in the routing header.
    pub route: [u8; 16],
    /// Whether there is a Home Address option.
    pub has_home: bool,
    /// The home address in the option.
    pub home: [u8; 16],
    /// The next-header number of the body.
    pub proto: u8,
    /// Where the body begins. A writer does not read it.
    pub body: usize,
    /// What is refused by `MIP_PACKET_HEADER` and `MIP_PACKET_OPTION`, else 0. A writer does not read it.
    pub refused: u8,
    /// Whom the packet is from: the Home Address option, or the source. A writer does not read it.
    pub sender: [u8; 16],
    /// Whom the packet is for: the routing header's address, or the destination. A writer does not read it.
    pub receiver: [u8; 16],
}

/// The fields of a head whose body begins at a place.
pub fn fields_of(head: &Head, place: usize) -> PacketFields
    ensures { result ≡ fields_of head.now place }
{
    PacketFields {
        source: head.source.bytes(),
        destination: head.destination.bytes(),
        hop: head.hop,
        traffic_class: head.class,
        flow: head.flow,
        has_route: head.route.is_some(),
        route: bytes_if_any(head.route),
        has_home: head.home.is_some(),
        home: bytes_if_any(head.home),
        proto: head.proto,
        body: place,
        refused: 0,
        sender: head.sender().bytes(),
        receiver: head.receiver().bytes(),
    }
}

/// The head that such fields say.
pub fn head_of(fields: &PacketFields) -> Head
    ensures { result ≡ head_of fields.now }
{
    Head {
        source: address_of(&fields.source),
        destination: address_of(&fields.destination),
        hop: fields.hop,
        class: fields.traffic_class,
        flow: fields.flow,
        route: address_if(fields.has_route, &fields.route),
        home: address_if(fields.has_home, &fields.home),
        proto: fields.proto,
    }
}

/// Nothing but what is refused.
pub fn refused_fields(refused: u8) -> PacketFields
    ensures { result ≡ refused_fields refused }
{
    PacketFields {
        source: [0; 16],
        destination: [0; 16],
        hop: 0,
        traffic_class: 0,
        flow: 0,
        has_route: false,
        route: [0; 16],
        has_home: false,
        home: [0; 16],
        proto: 0,
        body: 0,
        refused,
        sender: [0; 16],
        receiver: [0; 16],
    }
}
