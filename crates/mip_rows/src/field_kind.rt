/// The kinds of field. Each has values of its own, as `Value` says, and refuses each other field.
#[derive(Clone, Copy)]
pub enum Kind {
    U8,
    U16,
    U32,
    U64,
    /// A number from 1 to 3: one of the reasons why an acceptance is forged.
    Cause,
    Moment,
    Address,
    Token,
    Node,
    Link,
    Outsider,
    /// A node or an outsider.
    Who,
    SomeU16,
    SomeU64,
    SomeAddress,
    SomeToken,
    SomeLink,
    Shield,
    Answer,
    /// Why a packet reached nobody.
    Gone,
    /// Why a node could not send.
    Unsent,
    /// Why a node did nothing with a packet.
    Dropped,
}
