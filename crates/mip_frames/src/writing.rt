ghost use Rattle.std.specs.Prelude.{◌≡◌, ◌≤◌, length, IfOk, Some};
ghost use Rattle.mip_frames.specs.Framing.{IsInRange, frame_bytes, frame_of};

use mip_words::{Bytes, Memory, Shield};
use std::alloc::Global;

/// How many bytes a frame has at most.
pub const LONGEST_FRAME: usize = 4096;

#[tactic(auto, unfolding(crate::specs::Framing::frame_bytes))]
fn written(alloc: Global, shield: Option<Shield>, packet: &[u8]) -> Result<Bytes, Memory>
    ensures answers { IfOk result (λ b. b ≡ frame_bytes shield packet.now) }
    ensures range { IsInRange shield }
{
    let mut frame = Bytes::new(alloc);
    match shield {
        None => frame.push(0)?,
        Some(shield) => {
            frame.push(1)?;
            frame.extend(&shield.from.bytes())?;
            frame.extend(&shield.to.bytes())?;
        }
    }
    frame.extend(packet)?;
    Ok(frame)
}

/// The frame of a packet and the shield that it is under. Whether it is short enough to be sent is not looked at.
#[tactic(auto, using(crate::proofs::FrameLaws::frame_back))]
pub fn write_frame(alloc: Global, shield: Option<Shield>, packet: &[u8]) -> Result<Bytes, Memory>
    ensures answers { IfOk result (λ b. b ≡ frame_bytes shield packet.now) }
    ensures back { IfOk result (λ b. length b ≤ 4096 → frame_of b ≡ Some (record { shield = shield; packet = packet.now })) }
{
    written(alloc, shield, packet)
}

/// How long the frame of a packet is.
#[tactic(auto, using(crate::proofs::FrameLaws::length_plain, crate::proofs::FrameLaws::length_shielded))]
pub fn frame_len(shield: Option<Shield>, packet: &[u8]) -> usize
    ensures { result ≡ length (frame_bytes shield packet.now) }
{
    match shield {
        None => packet.len() + 1,
        Some(_) => packet.len() + 33,
    }
}
