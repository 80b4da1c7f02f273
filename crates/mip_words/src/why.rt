/// Why a packet, an update or a sending came to nothing. The comment is the word that a trace prints.
#[derive(Clone, Copy, Debug, PartialEq, Eq)]
pub enum Why {
    /// `nolink`: no declared link has the destination's prefix.
    NoLink,
    /// `hop`: the hop limit is used up.
    Hop,
    /// `noholder`: nobody holds the destination.
    NoHolder,
    /// `shield`: the packet is shielded for somebody else.
    Shield,
    /// `detached`: the mobile is on no link.
    Detached,
    /// `unregistered`: the mobile has no agent to tunnel to.
    Unregistered,
    /// `noroute`: no port is configured for the destination. No node of a run answers it.
    NoRoute,
    /// `size`: a packet or a message has the wrong length, or is too long to send.
    Size,
    /// `short`: the packet ends inside a header.
    Short,
    /// `version`: the packet is not of version 6.
    Version,
    /// `length`: the payload length is not the number of bytes that follow.
    Length,
    /// `header`: a next header that may not stand there.
    Header,
    /// `route`: a routing header that is not for this node, or has a wrong field.
    Route,
    /// `option`: a destination option that may not stand there.
    Option,
    /// `checksum`: the checksum does not hold.
    Checksum,
    /// `type`: the Mobility Header has an unknown type.
    Kind,
    /// `proto`: the Payload Proto of the Mobility Header is not 59.
    Proto,
    /// `headerlen`: the Mobility Header is too short for its type.
    HeaderLen,
    /// `moption`: a mobility option that may not stand there.
    MobilityOption,
    /// `address`: the destination is none of the node's addresses.
    Address,
    /// `probe`: a test init with a Home Address option.
    Probe,
    /// `homeoption`: a Home Address option without a binding for it.
    HomeOption,
    /// `unroutable`: the home or the care-of address is not routable.
    Unroutable,
    /// `options`: an option that the update needs is missing.
    Options,
    /// `authenticator`: the authenticator is not the one of the tokens named.
    Authenticator,
    /// `role`: the message is for another kind of node.
    Role,
    /// `icmp`: an ICMPv6 message that has no effect here.
    Icmp,
    /// `none`: the packet has no next header.
    NoNext,
    /// `unshielded`: a message that must be shielded is not.
    Unshielded,
    /// `entry`: a tunnel packet from somebody else than the tunnel's entry.
    Entry,
    /// `nested`: a tunnel inside a tunnel.
    Nested,
    /// `cookie`: a test that answers no init of this node.
    Cookie,
    /// `ack`: an acknowledgement of no update of this node.
    Ack,
    /// `error`: a Binding Error that has no effect here.
    Error,
    /// `refresh`: a refresh request without a binding.
    Refresh,
    /// `frame`: a datagram that is no frame. No node of a run answers it.
    Frame,
}
