use mip_words::NodeId;

/// Who posted a packet.
#[derive(Clone, Copy, Debug, PartialEq, Eq)]
pub enum Maker {
    Node(NodeId),
    /// An outsider, by its number among outsiders.
    Outsider(u8),
}
