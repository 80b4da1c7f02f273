use mip_packets::UpdateIdentity;
use mip_provenance::Maker;

/// A packet with an update, and who posts it.
#[derive(Clone, Copy)]
pub struct Posting<'a> {
    pub number: u64,
    pub maker: Maker,
    pub key: UpdateIdentity<'a>,
}
