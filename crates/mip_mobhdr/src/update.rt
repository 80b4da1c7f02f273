ghost use Rattle.std.specs.Prelude.{◌≡◌, ◌+◌, ◌^◌, ◌<◌, ◌≤◌, ◌∷◌, ◌++◌, length, IfOk};
ghost use Rattle.mip_words.specs.Numbers.{number_bytes};
ghost use Rattle.mip_words.specs.Steps.{Gives};
ghost use Rattle.mip_mobhdr.specs.Said.{said, HasSpan};
ghost use Rattle.mip_mobhdr.specs.Reading.{update_of};
ghost use Rattle.mip_mobhdr.specs.Spelling.{flag};

use crate::fault::Fault;
use crate::front::Front;
use crate::message::Message;
use crate::message_bytes::MessageBytes;
use crate::option_reading::read_options;
use mip_words::{u16_at, u16_bytes};

/// The fields of a Binding Update, whatever stands before them.
#[tactic(auto, unfolding(crate::specs::Reading::update_of))]
pub fn read_update(body: &[u8]) -> Result<Message<'_>, Fault>
    requires { 16 ≤ length body.now }
    ensures exact { Gives said result (update_of body.now) }
    ensures span { IfOk result (HasSpan body.now) }
{
    let options = read_options(body, 12)?;
    let flags = body[8];
    Ok(Message::Update {
        sequence: u16_at(body, 6),
        ack: flags / 0x80 % 2 == 1,
        home: flags / 0x40 % 2 == 1,
        local: flags / 0x20 % 2 == 1,
        key: flags / 0x10 % 2 == 1,
        lifetime: u16_at(body, 10),
        options,
    })
}

/// Appends the fields of a Binding Update, from byte 6 on.
pub fn put_update(front: Front, sequence: u16, flags: u8, lifetime: u16) -> MessageBytes
    ensures ok { result ≡ front.bytes ++ (number_bytes 2 sequence ++ (flags ∷ 0 ∷ number_bytes 2 lifetime)) }
    ensures fits { (sequence < 2 ^ 16) × (lifetime < 2 ^ 16) }
{
    let mut out = front.bytes;
    out.extend(&u16_bytes(sequence));
    out.extend(&[flags, 0]);
    out.extend(&u16_bytes(lifetime));
    out
}

/// The flags of a Binding Update in their byte.
pub fn update_flags(ack: bool, home: bool, local: bool, key: bool) -> u8
    ensures { result ≡ flag 128 ack + flag 64 home + flag 32 local + flag 16 key }
{
    flag(0x80, ack) + flag(0x40, home) + flag(0x20, local) + flag(0x10, key)
}

fn flag(worth: u8, set: bool) -> u8
    ensures { result ≡ flag worth set }
{
    if set { worth } else { 0 }
}
