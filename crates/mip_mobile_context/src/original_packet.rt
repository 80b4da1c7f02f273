ghost use Rattle.mip_mobile_context.specs.Outgoing.{CanEnter};

use mip_words::Bytes;

/// A packet that a tunnel takes (RFC 2473 section 3.1): it has its fixed header, its hop limit can be lowered, and it fits into a
/// body.
#[derive(Drop)]
pub struct OriginalPacket {
    pub bytes: Bytes,
    pub ghost enters: { CanEnter bytes },
}
