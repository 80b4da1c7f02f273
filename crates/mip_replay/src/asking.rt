ghost use Rattle.std.specs.Prelude.{◌≡◌, option_map};
ghost use Rattle.mip_history.specs.Outsiders.{asking_in};
ghost use Rattle.mip_replay.specs.Forged as seen;

use mip_mobhdr::Message;
use mip_packets::{TestKind, innermost, message_in};
use mip_words::Cookie;

/// What the init of a test asks for: a test of this kind, with this cookie.
#[derive(Clone, Copy)]
pub(crate) struct Asking {
    pub kind: TestKind,
    pub cookie: Cookie,
}

/// The init of a test in a packet, through any depth of tunnels.
#[tactic(auto, unfolding(mip_history::specs::Outsiders::asking_in))]
pub(crate) fn asking_in(packet: &[u8]) -> Option<Asking>
    ensures { option_map seen.asking result ≡ asking_in packet.now }
{
    let packet = innermost(packet)?;
    match message_in(&packet) {
        Some(Message::HomeInit { cookie, .. }) => Some(Asking {
            kind: TestKind::Home,
            cookie,
        }),
        Some(Message::CareofInit { cookie, .. }) => Some(Asking {
            kind: TestKind::Careof,
            cookie,
        }),
        _ => None,
    }
}
