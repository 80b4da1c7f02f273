/// What a question about an address is about.
#[derive(Clone, Copy, Debug, PartialEq, Eq)]
pub enum Topic {
    /// A home whose update the node accepted.
    Binding,
    /// A home that the agent registered.
    Registration,
    /// A peer that bound the mobile.
    Peer,
}
