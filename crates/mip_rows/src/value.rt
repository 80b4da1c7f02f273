ghost use Rattle.std.specs.Prelude.{◌≡◌};
ghost use Rattle.mip_rows.specs.Values.{address_value};

use mip_words::{Address, LinkId, Moment, NodeId, Token, Why};

/// What a field says. Numbers are written in digits, addresses and tokens in hexadecimal digits, nodes, links and outsiders
/// by their names, and none of `Some..` as `-`.
#[derive(Clone, Copy)]
pub enum Value {
    U8(u8),
    U16(u16),
    U32(u32),
    U64(u64),
    Moment(Moment),
    Address(Address),
    Token(Token),
    Node(NodeId),
    Link(LinkId),
    /// An outsider, by its number.
    Outsider(u8),
    /// A node by its number, or an outsider by 32 more than its number.
    Who(u8),
    SomeU16(Option<u16>),
    SomeU64(Option<u64>),
    /// `-` in place of an address.
    NoAddress,
    SomeToken(Option<Token>),
    SomeLink(Option<LinkId>),
    /// `+` where a packet is shielded, else `-`.
    Shield(bool),
    /// `yes`, or `no`.
    Answer(bool),
    /// The word of a reason.
    Why(Why),
}

impl Value {
    /// An address, or none.
    pub fn some_address(address: Option<Address>) -> Value
        ensures { result ≡ address_value address }
    {
        match address {
            Some(address) => Value::Address(address),
            None => Value::NoAddress,
        }
    }
}

impl Default for Value {
    fn default() -> Value {
        Value::U8(0)
    }
}
