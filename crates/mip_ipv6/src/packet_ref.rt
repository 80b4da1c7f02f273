use crate::head::Head;

/// A packet that was read.
#[derive(Clone, Copy, Debug)]
pub struct PacketRef<'a> {
    pub head: Head,
    pub body: &'a [u8],
    /// Where the body stands in the bytes that were read.
    pub place: usize,
}
