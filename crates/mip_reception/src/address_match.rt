/// What a packet's addresses are to a node.
#[derive(Clone, Copy, Debug, PartialEq, Eq)]
pub struct AddressMatch {
    /// The destination is one of the node's addresses.
    pub is_mine: bool,
    /// The node is an away mobile, and a routing header names its home address.
    pub takes_route: bool,
    /// A binding from the home address of a Home Address option to the packet's source stands.
    pub holds: bool,
}
