//! Why a packet, an update or a sending came to nothing, as numbers. Each sentence begins with the word of a trace.

ghost use Rattle.std.specs.Prelude.{◌≡◌};
ghost use Rattle.mip_c_words.specs.Whys.{why_number};

use mip_words::Why;

/// `nolink`: no declared link has the destination's prefix.
pub const NOLINK: u8 = 0;

/// `hop`: the hop limit is used up.
pub const HOP: u8 = 1;

/// `noholder`: nobody holds the destination.
pub const NOHOLDER: u8 = 2;

/// `shield`: the packet is shielded for somebody else.
pub const SHIELD: u8 = 3;

/// `detached`: the mobile is on no link.
pub const DETACHED: u8 = 4;

/// `unregistered`: the mobile has no agent to tunnel to.
pub const UNREGISTERED: u8 = 5;

/// `noroute`: no port is configured for the destination. No node of a run answers it.
pub const NOROUTE: u8 = 6;

/// `size`: a packet or a message has the wrong length, or is too long to send.
pub const SIZE: u8 = 7;

/// `short`: the packet ends inside a header.
pub const SHORT: u8 = 8;

/// `version`: the packet is not of version 6.
pub const VERSION: u8 = 9;

/// `length`: the payload length is not the number of bytes that follow.
pub const LENGTH: u8 = 10;

/// `header`: a next header that may not stand there.
pub const HEADER: u8 = 11;

/// `route`: a routing header that is not for this node, or has a wrong field.
pub const ROUTE: u8 = 12;

/// `option`: a destination option that may not stand there.
pub const OPTION: u8 = 13;

/// `checksum`: the checksum does not hold.
pub const CHECKSUM: u8 = 14;

/// `type`: the Mobility Header has an unknown type.
pub const TYPE: u8 = 15;

/// `proto`: the Payload Proto of the Mobility Header is not 59.
pub const PROTO: u8 = 16;

/// `headerlen`: the Mobility Header is too short for its type.
pub const HEADERLEN: u8 = 17;

/// `moption`: a mobility option that may not stand there.
pub const MOPTION: u8 = 18;

/// `address`: the destination is none of the node's addresses.
pub const ADDRESS: u8 = 19;

/// `probe`: a test init with a Home Address option.
pub const PROBE: u8 = 20;

/// `homeoption`: a Home Address option without a binding for it.
pub const HOMEOPTION: u8 = 21;

/// `unroutable`: the home or the care-of address is not routable.
pub const UNROUTABLE: u8 = 22;

/// `options`: an option that the update needs is missing.
pub const OPTIONS: u8 = 23;

/// `authenticator`: the authenticator is not the one of the tokens named.
pub const AUTHENTICATOR: u8 = 24;

/// `role`: the message is for another kind of node.
pub const ROLE: u8 = 25;

/// `icmp`: an ICMPv6 message that has no effect here.
pub const ICMP: u8 = 26;

/// `none`: the packet has no next header.
pub const NONE: u8 = 27;

/// `unshielded`: a message that must be shielded is not.
pub const UNSHIELDED: u8 = 28;

/// `entry`: a tunnel packet from somebody else than the tunnel's entry.
pub const ENTRY: u8 = 29;

/// `nested`: a tunnel inside a tunnel.
pub const NESTED: u8 = 30;

/// `cookie`: a test that answers no init of this node.
pub const COOKIE: u8 = 31;

/// `ack`: an acknowledgement of no update of this node.
pub const ACK: u8 = 32;

/// `error`: a Binding Error that has no effect here.
pub const ERROR: u8 = 33;

/// `refresh`: a refresh request without a binding.
pub const REFRESH: u8 = 34;

/// `frame`: a datagram that is no frame. No node of a run answers it.
pub const FRAME: u8 = 35;

/// The number of a reason.
pub fn why_number(why: Why) -> u8
    ensures { result ≡ why_number why }
{
    match why {
        Why::NoLink => NOLINK,
        Why::Hop => HOP,
        Why::NoHolder => NOHOLDER,
        Why::Shield => SHIELD,
        Why::Detached => DETACHED,
        Why::Unregistered => UNREGISTERED,
        Why::NoRoute => NOROUTE,
        Why::Size => SIZE,
        Why::Short => SHORT,
        Why::Version => VERSION,
        Why::Length => LENGTH,
        Why::Header => HEADER,
        Why::Route => ROUTE,
        Why::Option => OPTION,
        Why::Checksum => CHECKSUM,
        Why::Kind => TYPE,
        Why::Proto => PROTO,
        Why::HeaderLen => HEADERLEN,
        Why::MobilityOption => MOPTION,
        Why::Address => ADDRESS,
        Why::Probe => PROBE,
        Why::HomeOption => HOMEOPTION,
        Why::Unroutable => UNROUTABLE,
        Why::Options => OPTIONS,
        Why::Authenticator => AUTHENTICATOR,
        Why::Role => ROLE,
        Why::Icmp => ICMP,
        Why::NoNext => NONE,
        Why::Unshielded => UNSHIELDED,
        Why::Entry => ENTRY,
        Why::Nested => NESTED,
        Why::Cookie => COOKIE,
        Why::Ack => ACK,
        Why::Error => ERROR,
        Why::Refresh => REFRESH,
        Why::Frame => FRAME,
    }
}
