use mip_words::Bytes;

/// Where kept bytes stand: few in place, so that they take no memory of their own, and more elsewhere.
#[derive(Drop)]
pub(crate) enum KeptRoom {
    /// So many of these.
    Few { count: u8, bytes: [u8; 14] },
    Many(Box<Bytes>),
}
