/// What a Binding Acknowledgement says (RFC 6275 section 6.1.8).
#[derive(Clone, Copy)]
pub struct Acknowledgement {
    pub status: u8,
    pub sequence: u16,
    /// How long the binding is granted, in units of 4 s.
    pub lifetime: u16,
    pub authenticator: Option<[u8; 12]>,
}
