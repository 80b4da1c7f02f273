/// A Binding Acknowledgement as it came, with the Mobility Header that it is (RFC 6275 section 6.1.8).
#[derive(Clone, Copy, Debug, PartialEq, Eq)]
pub struct PeerAck<'a> {
    pub status: u8,
    pub sequence: u16,
    /// In units of 4 s.
    pub lifetime: u16,
    pub authenticator: Option<[u8; 12]>,
    pub message: &'a [u8],
}
