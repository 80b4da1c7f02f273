use mip_words::LinkId;

/// The link that a packet was sent from, and the place of its shield among those that packets have had: 8 bytes.
#[derive(Clone, Copy)]
pub(crate) enum KeptFlight {
    Plain(LinkId),
    Shielded(LinkId, u32),
}
