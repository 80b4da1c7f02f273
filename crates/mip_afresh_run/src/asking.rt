ghost use Rattle.std.specs.Prelude.{◌≡◌, Some, option_map};
ghost use Rattle.mip_mobhdr.specs.Said.{said};
ghost use Rattle.mip_history.specs.Outsiders.{asking_in, asking_said};
ghost use Rattle.mip_afresh_run.specs.Forged.{asking_seen};

use mip_mobhdr::Message;
use mip_packets::{TestKind, innermost, message_in};
use mip_words::Cookie;

/// What the init of a test asks for: a test of this kind, with this cookie.
#[derive(Clone, Copy)]
pub(crate) struct Asking {
    pub kind: TestKind,
    pub cookie: Cookie,
}

/// What a message asks for.
fn asking_said(message: &Message<'_>) -> Option<Asking>
    ensures { option_map asking_seen result ≡ asking_said (Some (said message.now)) }
{
    match message {
        Message::HomeInit { cookie, .. } => Some(Asking {
            kind: TestKind::Home,
            cookie: *cookie,
        }),
        Message::CareofInit { cookie, .. } => Some(Asking {
            kind: TestKind::Careof,
            cookie: *cookie,
        }),
        _ => None,
    }
}

/// What the init in a packet asks for, through any depth of tunnels.
#[tactic(auto, unfolding(mip_history::specs::Outsiders::asking_in))]
pub(crate) fn asking_in(packet: &[u8]) -> Option<Asking>
    ensures { option_map asking_seen result ≡ asking_in packet.now }
{
    let packet = innermost(packet)?;
    let message = message_in(&packet)?;
    asking_said(&message)
}
