ghost use Rattle.std.specs.Prelude.{◌≡◌, ◌<◌};
ghost use Rattle.mip_words.specs.Holders.{holder_at, holder_number};

use crate::ids::NodeId;

/// The number of holders: at most 32 nodes, then at most 8 outsiders.
pub const HOLDERS: usize = 40;

/// The number of the first outsider among the holders: it follows those of the nodes.
const FIRST_OUTSIDER: u8 = 32;

/// A holder of addresses: one of at most 32 nodes, or one of at most 8 outsiders by its place among the declared outsiders.
#[derive(Clone, Copy, Debug, PartialEq, Eq)]
pub enum Holder {
    Node(NodeId),
    Outsider(u8),
}

impl Holder {
    /// The holder with this number: a node by its number, or an outsider by 32 more than its place.
    pub fn of(number: u8) -> Holder
        ensures { result ≡ holder_at number }
    {
        if number < FIRST_OUTSIDER {
            Holder::Node(NodeId(number))
        } else {
            Holder::Outsider(number - FIRST_OUTSIDER)
        }
    }

    /// The number of a holder, by which it is recorded.
    pub fn number(self) -> u8
        requires { holder_number self < 256 }
        ensures { result ≡ holder_number self }
    {
        match self {
            Holder::Node(node) => node.0,
            Holder::Outsider(outsider) => outsider + FIRST_OUTSIDER,
        }
    }

    /// The place of a holder in a list that has one for each number.
    pub fn place(self) -> usize
        ensures { result ≡ holder_number self }
    {
        match self {
            Holder::Node(node) => usize::from(node.0),
            Holder::Outsider(outsider) => usize::from(outsider) + usize::from(FIRST_OUTSIDER),
        }
    }
}
