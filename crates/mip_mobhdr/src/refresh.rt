ghost use Rattle.std.specs.Prelude.{◌≡◌, ◌≤◌, [], ◌∷◌, ◌++◌, length, IfOk};
ghost use Rattle.mip_words.specs.Steps.{Gives};
ghost use Rattle.mip_mobhdr.specs.Said.{said, HasSpan};
ghost use Rattle.mip_mobhdr.specs.Reading.{refresh_of};

use crate::fault::Fault;
use crate::front::Front;
use crate::message::Message;
use crate::message_bytes::MessageBytes;
use crate::option_reading::read_options;

/// The fields of a Binding Refresh Request.
#[tactic(auto, unfolding(crate::specs::Reading::refresh_of))]
pub fn refresh(body: &[u8]) -> Result<Message<'_>, Fault>
    requires { 8 ≤ length body.now }
    ensures exact { Gives said result (refresh_of body.now) }
    ensures span { IfOk result (HasSpan body.now) }
{
    let options = read_options(body, 8)?;
    Ok(Message::Refresh { options })
}

/// Appends the fields of a Binding Refresh Request, from byte 6 on.
pub fn put_refresh(front: Front) -> MessageBytes
    ensures { result ≡ front.bytes ++ (0 ∷ 0 ∷ []) }
{
    let mut out = front.bytes;
    out.extend(&[0, 0]);
    out
}
