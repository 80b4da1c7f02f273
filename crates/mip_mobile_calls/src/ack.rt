/// What a Binding Acknowledgement says, before it is known whose it is (RFC 6275 section 6.1.8).
#[derive(Clone, Copy, Debug, PartialEq, Eq)]
pub struct Ack {
    pub status: u8,
    pub sequence: u16,
    /// In units of 4 s.
    pub lifetime: u16,
}
