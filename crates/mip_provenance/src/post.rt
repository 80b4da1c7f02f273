use crate::maker::Maker;

/// A packet that was posted, and who posted it.
#[derive(Clone, Copy)]
pub struct Post<'a> {
    pub maker: Maker,
    pub packet: &'a [u8],
}
