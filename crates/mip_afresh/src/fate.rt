use mip_words::{NodeId, Why};

/// What becomes of a packet that is delivered.
#[derive(Clone, Copy, Debug, PartialEq, Eq)]
pub enum Fate {
    /// It is not in the pool.
    Idle,
    /// It comes to nobody.
    Gone(Why),
    /// An outsider holds its destination.
    Outsider(u8),
    /// A node holds its destination.
    Node(NodeId),
}
