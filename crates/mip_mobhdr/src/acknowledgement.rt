ghost use Rattle.std.specs.Prelude.{◌≡◌, ◌^◌, ◌<◌, ◌≤◌, ◌∷◌, ◌++◌, length, IfOk};
ghost use Rattle.mip_words.specs.Numbers.{number_bytes};
ghost use Rattle.mip_words.specs.Steps.{Gives};
ghost use Rattle.mip_mobhdr.specs.Said.{said, HasSpan};
ghost use Rattle.mip_mobhdr.specs.Reading.{acknowledgement_of};
ghost use Rattle.mip_mobhdr.specs.Spelling.{flag};

use crate::fault::Fault;
use crate::front::Front;
use crate::message::Message;
use crate::message_bytes::MessageBytes;
use crate::option_reading::read_options;
use mip_words::{u16_at, u16_bytes};

/// The fields of a Binding Acknowledgement.
#[tactic(auto, unfolding(crate::specs::Reading::acknowledgement_of))]
pub fn acknowledgement(body: &[u8]) -> Result<Message<'_>, Fault>
    requires { 16 ≤ length body.now }
    ensures exact { Gives said result (acknowledgement_of body.now) }
    ensures span { IfOk result (HasSpan body.now) }
{
    let options = read_options(body, 12)?;
    Ok(Message::Acknowledgement {
        status: body[6],
        key: body[7] / 0x80 % 2 == 1,
        sequence: u16_at(body, 8),
        lifetime: u16_at(body, 10),
        options,
    })
}

/// Appends the fields of a Binding Acknowledgement, from byte 6 on.
pub fn put_acknowledgement(
    front: Front,
    status: u8,
    key: bool,
    sequence: u16,
    lifetime: u16,
) -> MessageBytes
    ensures ok { result ≡ front.bytes ++ (status ∷ flag 128 key ∷ (number_bytes 2 sequence ++ number_bytes 2 lifetime)) }
    ensures fits { (sequence < 2 ^ 16) × (lifetime < 2 ^ 16) }
{
    let mut out = front.bytes;
    let flags = if key { 0x80 } else { 0 };
    out.extend(&[status, flags]);
    out.extend(&u16_bytes(sequence));
    out.extend(&u16_bytes(lifetime));
    out
}
