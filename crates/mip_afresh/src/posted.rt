ghost use Rattle.std.specs.Prelude.{◌≡◌, ◌≤◌, length};

use crate::packet_bytes::PacketBytes;
use mip_words::{Bytes, LinkId, Shield};

/// A packet as it was posted, with its fixed header at least.
#[derive(Drop)]
pub struct Posted {
    /// The link that it was sent from.
    pub from: LinkId,
    pub shield: Option<Shield>,
    pub packet: Bytes,
    pub ghost headed: { 40 ≤ length packet },
}

impl Posted {
    pub(crate) fn bytes(&self) -> PacketBytes<'_>
        ensures { result.bytes.now ≡ self.now.packet }
    {
        PacketBytes {
            bytes: self.packet.as_slice(),
        }
    }
}
