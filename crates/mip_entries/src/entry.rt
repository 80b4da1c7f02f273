use mip_words::{Address, Bytes, LinkId, Moment, NodeId, Token, Why};

/// One entry of a history. The comment is its line in a trace. `who` and `holder` are a node's number
/// or 32 plus an outsider's; `outsider` is a number among outsiders; `number` is that of a packet.
#[derive(Drop)]
pub enum Entry {
    /// `at MOMENT`: the moment from here on, in milliseconds.
    At {
        moment: Moment,
    },
    /// `moved M LINK`: a mobile stands on the link, or on none.
    Moved {
        node: NodeId,
        link: Option<LinkId>,
    },
    /// `advertised NODE LINK AGENT`: a node was told of a router, an agent of another agent.
    Advertised {
        node: NodeId,
        link: LinkId,
        agent: Option<Address>,
    },
    /// `claimed WHO LINK ADDRESS`: somebody holds an address from here on.
    Claimed {
        who: u8,
        link: LinkId,
        address: Address,
    },
    /// `released WHO LINK ADDRESS`: and gives it up.
    Released {
        who: u8,
        link: LinkId,
        address: Address,
    },
    /// `taken WHO LINK ADDRESS HOLDER`: somebody claimed in vain.
    Taken {
        who: u8,
        link: LinkId,
        address: Address,
        holder: u8,
    },
    /// `listening O LINK`: an outsider hears what is sent on the link.
    Listening {
        outsider: u8,
        link: LinkId,
    },
    /// `deafened O LINK`: and hears it no more.
    Deafened {
        outsider: u8,
        link: LinkId,
    },
    /// `careof M ADDRESS`: a mobile uses this care-of address.
    Careof {
        node: NodeId,
        address: Address,
    },
    /// `sent K NODE SHIELD KIND HEX`: a node sent packet K.
    Sent {
        number: u64,
        node: NodeId,
        shielded: bool,
        packet: Bytes,
    },
    /// `injected K O LINK KIND HEX`: an outsider sent packet K.
    Injected {
        number: u64,
        outsider: u8,
        link: LinkId,
        packet: Bytes,
    },
    /// `heard K O`: an outsider heard packet K.
    Heard {
        number: u64,
        outsider: u8,
    },
    /// `handed K NODE`: packet K reached a node, whose answers follow.
    Handed {
        number: u64,
        node: NodeId,
    },
    /// `gone K WHY`: packet K reached nobody.
    Gone {
        number: u64,
        why: Why,
    },
    /// `lost K`: packet K was lost.
    Lost {
        number: u64,
    },
    /// `idle`: the event changed nothing.
    Idle,
    /// `home G HOME CAREOF SEQUENCE END`: an agent registered a home, or ended its registration.
    Home {
        node: NodeId,
        home: Address,
        careof: Address,
        sequence: u16,
        end: Moment,
    },
    /// `registered M AGENT END`: a mobile knows that it is registered.
    Registered {
        node: NodeId,
        agent: Address,
        end: Moment,
    },
    /// `unregistered M AGENT`: and that it is so no more.
    Unregistered {
        node: NodeId,
        agent: Address,
    },
    /// `refused M STATUS`: the agent refused.
    Refused {
        node: NodeId,
        status: u8,
    },
    /// `chosen M AGENT`: a mobile turns to this agent.
    Chosen {
        node: NodeId,
        agent: Address,
    },
    /// `prefixes M VALID PREFERRED`: the seconds that the home prefix is valid and preferred.
    Prefixes {
        node: NodeId,
        valid: u32,
        preferred: u32,
    },
    /// `made M PEER K TOKEN TOKEN`: packet K is an update made from these tokens.
    Made {
        node: NodeId,
        peer: Address,
        number: u64,
        home: Token,
        careof: Option<Token>,
    },
    /// `bound M PEER END`: a mobile knows that a peer holds its care-of address.
    Bound {
        node: NodeId,
        peer: Address,
        end: Moment,
    },
    /// `unbound M PEER`: and that it does so no more.
    Unbound {
        node: NodeId,
        peer: Address,
    },
    /// `accepted X K HOME NUMBER CAREOF SEQUENCE END HOMEINDEX CAREOFINDEX`: a correspondent accepted an
    /// update.
    Accepted {
        node: NodeId,
        number: u64,
        home: Address,
        binding: u8,
        careof: Address,
        sequence: u16,
        end: Moment,
        home_index: u16,
        careof_index: Option<u16>,
    },
    /// `origin HOT COT UPDATE`: where the tokens and the update of the acceptance before came from.
    Origin {
        hot: u64,
        cot: Option<u64>,
        update: u64,
    },
    /// `forged CAUSE`: why the acceptance before has no such origin.
    Forged {
        cause: u8,
    },
    /// `denied X K STATUS`: a node denied an update.
    Denied {
        node: NodeId,
        number: u64,
        status: u8,
    },
    /// `dropped X K WHY`: a node took a packet and did nothing with it.
    Dropped {
        node: NodeId,
        number: u64,
        why: Why,
    },
    /// `up X K SOURCE DESTINATION PROTO HEX`: a node handed data up, with home addresses restored.
    Up {
        node: NodeId,
        number: u64,
        source: Address,
        destination: Address,
        proto: u8,
        payload: Bytes,
    },
    /// `unsent X WHY`: a node could not send.
    Unsent {
        node: NodeId,
        why: Why,
    },
    /// `restarted X`: a node lost all that it kept.
    Restarted {
        node: NodeId,
    },
    /// `row X HOME NUMBER CAREOF SEQUENCE END KEPT`: a row of a cache, or a registration.
    Row {
        node: NodeId,
        home: Address,
        binding: u8,
        careof: Address,
        sequence: u16,
        end: Moment,
        kept_until: Moment,
    },
    /// `settled X Y yes`, or `no`: whether two nodes can exchange data as things stand.
    Settled {
        a: NodeId,
        b: NodeId,
        yes: bool,
    },
}
