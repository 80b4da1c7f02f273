use mip_words::Address;

/// What a header that may be absent gave.
#[derive(Clone, Copy)]
pub(crate) struct Walked<'a> {
    pub(crate) found: Option<Address>,
    /// The next-header number behind the header.
    pub(crate) next: u8,
    /// The bytes behind the header.
    pub(crate) rest: &'a [u8],
}
