/// A node, by its place among the declared nodes.
#[derive(Clone, Copy, Debug, PartialEq, Eq)]
pub struct NodeId(pub u8);

/// A role writes this for its own number, as it does not know its place.
pub const MYSELF: NodeId = NodeId(0);

/// A link, by its place among the declared links.
#[derive(Clone, Copy, Debug, PartialEq, Eq)]
pub struct LinkId(pub u8);

/// A role, and a node alone, writes this for its link, which has no place.
pub const HERE: LinkId = LinkId(0);
