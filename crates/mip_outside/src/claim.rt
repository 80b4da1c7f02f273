/// What a claim of an address was answered.
#[derive(Clone, Copy, Debug, PartialEq, Eq)]
pub enum Claim {
    /// Nobody else holds the address: the node has it.
    Held,
    /// Somebody else holds the home address of the mobile that asked.
    Waiting,
    /// Somebody else holds the address: the holder's number in order of declaration, for an outsider 32 more than its
    /// number among outsiders.
    Taken { by: u8 },
}
