ghost use Rattle.std.specs.Prelude.{◌≡◌, ◌≤◌, ℕ, List, length, drop, IfSome, Some, option_map};
ghost use Rattle.std.specs.declared.option.Option.{Option};
ghost use Rattle.mip_words.specs.declared.shield.Shield.{Shield};
ghost use Rattle.mip_frames.specs.Framing.{framed, IsInRange, frame_bytes, shield_at, shielded_in, frame_of, ends_at, framed_in};

use crate::frame::Frame;
use crate::writing::LONGEST_FRAME;
use mip_words::{Address, Shield};

/// The bytes of a shield.
const SHIELD: usize = 32;

/// The shield of these bytes behind a 1.
fn shield_at(rest: &[u8]) -> Shield
    requires { 32 ≤ length rest.now }
    ensures { result ≡ shield_at rest.now }
{
    Shield {
        from: Address::at(rest, 0),
        to: Address::at(rest, 16),
    }
}

/// The packet behind the shield.
fn behind_shield(rest: &[u8]) -> &[u8]
    requires { 32 ≤ length rest.now }
    ensures { result.now ≡ drop 32 rest.now }
{
    &rest[SHIELD..]
}

/// The frame of these bytes behind a 1.
fn shielded(rest: &[u8]) -> Option<Frame<'_>>
    ensures { option_map framed result ≡ shielded_in rest.now }
{
    if rest.len() < SHIELD {
        return None;
    }
    Some(Frame {
        shield: Some(shield_at(rest)),
        packet: behind_shield(rest),
    })
}

#[tactic(auto, unfolding(crate::specs::Framing::frame_of))]
fn carried(datagram: &[u8]) -> Option<Frame<'_>>
    ensures { option_map framed result ≡ frame_of datagram.now }
{
    if datagram.len() > LONGEST_FRAME {
        return None;
    }
    match datagram.split_first()? {
        (0, packet) => Some(Frame {
            shield: None,
            packet,
        }),
        (1, rest) => shielded(rest),
        _ => None,
    }
}

/// The frame that a datagram is: at most 4,096 bytes, which are 0 and a packet, or 1, the addresses where a shield begins and
/// ends, and a packet.
pub fn read_frame(datagram: &[u8]) -> Option<Frame<'_>>
    ensures exact { option_map framed result ≡ frame_of datagram.now }
    ensures found { IfSome result (λ f. datagram.now ≡ frame_bytes f.shield f.packet.now) }
    ensures only { (shield : Option Shield) (packet : List ℕ) → IsInRange shield → length datagram.now ≤ 4096
        → datagram.now ≡ frame_bytes shield packet → option_map framed result ≡ Some (record { shield = shield; packet = packet }) }
{
    carried(datagram)
}

/// Whether a shield, if there is one, ends at this address.
fn ends_at(own: Address, shield: Option<Shield>) -> bool
    ensures { result ≡ ends_at own shield }
{
    shield.is_none_or(|shield| shield.to == own)
}

/// The frame that a datagram is, where the node with this address takes it: a shielded one must end there.
pub fn read_frame_for(own: Address, datagram: &[u8]) -> Option<Frame<'_>>
    ensures exact { option_map framed result ≡ framed_in own datagram.now }
{
    let frame = read_frame(datagram)?;
    ends_at(own, frame.shield).then_some(frame)
}
