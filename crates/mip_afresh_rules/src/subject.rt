//! What a packet asks of what its receiver keeps.

ghost use Rattle.std.specs.Prelude.{◌≡◌};
ghost use Rattle.mip_ipv6.specs.Reading.{packet_of};
ghost use Rattle.mip_afresh_rules.specs.Keeping.{subject_in};

use mip_ipv6::read_packet;
use mip_words::Address;

/// The source of a packet, and its Home Address option where one stands.
#[derive(Clone, Copy, Debug, PartialEq, Eq)]
pub struct Subject {
    pub source: Address,
    pub home: Option<Address>,
}

/// What bytes ask; none where they are no packet.
pub fn subject_of(bytes: &[u8]) -> Option<Subject>
    ensures { result ≡ subject_in (packet_of bytes.now) }
{
    match read_packet(bytes) {
        Ok(packet) => Some(Subject {
            source: packet.head.source,
            home: packet.head.home,
        }),
        Err(_) => None,
    }
}
