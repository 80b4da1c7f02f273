use mip_mobhdr::Indices;
use mip_words::Address;

/// What a Binding Update asks of its receiver (RFC 6275 section 6.1.7), but for its authenticator.
#[derive(Clone, Copy, Debug, PartialEq, Eq)]
pub struct Registration {
    /// The source of its packet.
    pub source: Address,
    /// The Home Address option, where one stands.
    pub home_option: Option<Address>,
    pub sequence: u16,
    /// Flag A: an acknowledgement is asked for.
    pub ack: bool,
    /// Flag H: it is for a home agent.
    pub for_agent: bool,
    /// In units of 4 s.
    pub lifetime: u16,
    /// The Alternate Care-of Address, where one stands.
    pub alternate: Option<Address>,
    /// The Nonce Indices, where they stand.
    pub nonces: Option<Indices>,
    /// The Binding Number, where one stands.
    pub number: Option<u8>,
    /// Whether Binding Authorization Data stands there.
    pub authorized: bool,
}
