use mip_words::Address;

/// The ends of an update that an outsider posts: those of its packet, and those of the binding that it asks for.
#[derive(Clone, Copy, Debug, PartialEq, Eq)]
pub struct UpdateEnds {
    pub source: Address,
    pub peer: Address,
    pub home: Address,
    pub careof: Address,
}
