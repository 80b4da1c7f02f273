use mip_words::{NodeId, Why};

/// What becomes of a packet that is delivered.
#[derive(Clone, Copy, Debug, PartialEq, Eq)]
pub enum Delivery {
    /// The packet is not in the pool.
    Idle,
    /// The packet comes to nobody: `NoLink`, `Hop`, `NoHolder` or `Shield`.
    Gone(Why),
    /// An outsider holds its destination.
    Outsider(u8),
    /// A node holds its destination.
    Node(NodeId),
}
