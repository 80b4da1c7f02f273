ghost use Rattle.std.specs.Prelude.{◌≡◌};
ghost use Rattle.mip_c_words.specs.Addresses.{some_if};
ghost use Rattle.mip_c_icmp.specs.Neighbours.{plain_fields, refused_fields, fields_of, fault_status, fault_fields, neighbour_of};

use mip_c_words::addresses::address_of;
use mip_c_words::status::{
    NEIGHBOUR_CHECKSUM, NEIGHBOUR_HOP, NEIGHBOUR_OPTION, NEIGHBOUR_SHORT, NEIGHBOUR_TARGET,
    NEIGHBOUR_TYPE,
};
use mip_proxynd::{Neighbour, NeighbourFault};
use mip_words::Address;

/// A neighbour message (RFC 4861 sections 4.3 and 4.4). A field that its kind does not have is 0.
#[repr(C)]
#[derive(Clone, Copy)]
pub struct NeighbourFields {
    /// 135 Neighbour Solicitation, 136 Neighbour Advertisement.
    pub kind: u8,
    /// The code that `MIP_NEIGHBOUR_TYPE` refuses, else 0. A writer does not read it.
    pub code: u8,
    /// Of 136: flag R, the sender is a router.
    pub router: bool,
    /// Of 136: flag S, the message answers a solicitation.
    pub solicited: bool,
    /// Of 136: flag O, the message overrides what was heard before.
    pub overrides: bool,
    /// The address that is asked for, or advertised.
    pub target: [u8; 16],
    /// Whether there is a link-layer address: option 1 of 135, option 2 of 136.
    pub has_layer: bool,
    pub layer: [u8; 6],
    /// Where the option begins that `MIP_NEIGHBOUR_OPTION` refuses, else 0. A writer does not read it.
    pub place: usize,
}

fn plain_fields(kind: u8, target: Address, layer: Option<[u8; 6]>) -> NeighbourFields
    ensures { result ≡ plain_fields kind target layer }
{
    NeighbourFields {
        kind,
        code: 0,
        router: false,
        solicited: false,
        overrides: false,
        target: target.bytes(),
        has_layer: layer.is_some(),
        layer: layer.unwrap_or([0; 6]),
        place: 0,
    }
}

fn refused_fields(kind: u8, code: u8, place: usize) -> NeighbourFields
    ensures { result ≡ refused_fields kind code place }
{
    NeighbourFields {
        kind,
        code,
        router: false,
        solicited: false,
        overrides: false,
        target: [0; 16],
        has_layer: false,
        layer: [0; 6],
        place,
    }
}

/// The fields of a message that was read.
pub fn fields_of(message: &Neighbour) -> NeighbourFields
    ensures { result ≡ fields_of message.now }
{
    match message {
        Neighbour::Solicit { target, layer } => plain_fields(135, *target, *layer),
        Neighbour::Advert {
            router,
            solicited,
            over,
            target,
            layer,
        } => NeighbourFields {
            router: *router,
            solicited: *solicited,
            overrides: *over,
            ..plain_fields(136, *target, *layer)
        },
    }
}

/// The status of a fault.
pub fn fault_status(fault: NeighbourFault) -> u32
    ensures { result ≡ fault_status fault }
{
    match fault {
        NeighbourFault::Hop => NEIGHBOUR_HOP,
        NeighbourFault::Short => NEIGHBOUR_SHORT,
        NeighbourFault::Checksum => NEIGHBOUR_CHECKSUM,
        NeighbourFault::Unknown { .. } => NEIGHBOUR_TYPE,
        NeighbourFault::Target => NEIGHBOUR_TARGET,
        NeighbourFault::Option { .. } => NEIGHBOUR_OPTION,
    }
}

/// What is unknown, or where an option is wrong.
pub fn fault_fields(fault: NeighbourFault) -> NeighbourFields
    ensures { result ≡ fault_fields fault }
{
    match fault {
        NeighbourFault::Unknown { kind, code } => refused_fields(kind, code, 0),
        NeighbourFault::Option { place } => refused_fields(0, 0, place),
        _ => refused_fields(0, 0, 0),
    }
}

fn layer_if(counts: bool, layer: &[u8; 6]) -> Option<[u8; 6]>
    ensures { result ≡ some_if counts layer.now }
{
    if counts { Some(*layer) } else { None }
}

/// The message that such fields say.
pub fn neighbour_of(fields: &NeighbourFields) -> Neighbour
    ensures { result ≡ neighbour_of fields.now }
{
    let target = address_of(&fields.target);
    let layer = layer_if(fields.has_layer, &fields.layer);
    if fields.kind == 135 {
        return Neighbour::Solicit { target, layer };
    }
    Neighbour::Advert {
        router: fields.router,
        solicited: fields.solicited,
        over: fields.overrides,
        target,
        layer,
    }
}
