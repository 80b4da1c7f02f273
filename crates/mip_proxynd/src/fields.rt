//! The fields of a message at their places.

ghost use Rattle.std.specs.Prelude.{◌≡◌, ◌≤◌, length};
ghost use Rattle.mip_proxynd.specs.Fields.{is_group};
ghost use Rattle.mip_proxynd.specs.Reading.{message_in};

use crate::layers::Layers;
use crate::neighbour::Neighbour;
use mip_words::Address;

/// The type of a solicitation.
pub(crate) const SOLICIT: u8 = 135;

/// The type of an advertisement.
pub(crate) const ADVERT: u8 = 136;

/// Flag R in the byte of flags.
pub(crate) const ROUTER: u8 = 0x80;

/// Flag S in the byte of flags.
pub(crate) const SOLICITED: u8 = 0x40;

/// Flag O in the byte of flags.
pub(crate) const OVERRIDE: u8 = 0x20;

/// Whether this is a multicast address: its first byte is ff (RFC 4291 section 2.7).
pub(crate) fn is_group(address: Address) -> bool
    ensures { result ≡ is_group address }
{
    address.0 / 0x0100_0000_0000_0000_0000_0000_0000_0000 == 0xff
}

/// What a message of a known type says, with the link-layer addresses of its options.
#[tactic(auto, unfolding(crate::specs::Reading::message_in))]
pub(crate) fn message_of(kind: u8, body: &[u8], layers: Layers) -> Neighbour
    requires { 24 ≤ length body.now }
    ensures { result ≡ message_in kind body.now layers }
{
    let target = Address::at(body, 8);
    if kind == SOLICIT {
        return Neighbour::Solicit {
            target,
            layer: layers.source,
        };
    }
    let flags = body[4];
    Neighbour::Advert {
        router: flags / ROUTER % 2 == 1,
        solicited: flags / SOLICITED % 2 == 1,
        over: flags / OVERRIDE % 2 == 1,
        target,
        layer: layers.target,
    }
}
