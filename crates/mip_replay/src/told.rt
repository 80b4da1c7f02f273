ghost use Rattle.std.specs.Prelude.{◌≡◌, option_map};
ghost use Rattle.mip_history.specs.Outsiders.{told_by};
ghost use Rattle.mip_packets.specs.Says.{carried, kind_of};
ghost use Rattle.mip_replay.specs.Forged as seen;

use mip_packets::{Carried, TestKind, carried_in};
use mip_words::Token;

/// What a test says: its nonce index and its token.
#[derive(Clone, Copy)]
pub(crate) struct Told {
    pub index: u16,
    pub token: Token,
}

/// The test of this kind in a packet, through any depth of tunnels.
pub(crate) fn told_in(kind: TestKind, packet: &[u8]) -> Option<Told>
    ensures { option_map seen.told result ≡ told_by (kind_of kind) (carried packet.now) }
{
    match carried_in(packet) {
        Carried::Test {
            kind: of,
            index,
            token,
            ..
        } => {
            if of == kind {
                Some(Told { index, token })
            } else {
                None
            }
        }
        _ => None,
    }
}
