use mip_words::Address;

/// A Binding Update as its receiver sees it (RFC 6275 section 6.1.7): the packet's source, the Home
/// Address option where one stands, and the bytes of the message.
#[derive(Clone, Copy)]
pub struct UpdateSeen<'a> {
    pub source: Address,
    pub home: Option<Address>,
    pub message: &'a [u8],
}
