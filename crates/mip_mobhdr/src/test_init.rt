ghost use Rattle.std.specs.Prelude.{◌≡◌, ◌^◌, ◌<◌, ◌≤◌, ◌∷◌, ◌++◌, length, IfOk};
ghost use Rattle.mip_words.specs.Numbers.{number_bytes};
ghost use Rattle.mip_words.specs.Steps.{Gives};
ghost use Rattle.mip_mobhdr.specs.Said.{said, HasSpan};
ghost use Rattle.mip_mobhdr.specs.Reading.{home_init_of, careof_init_of};

use crate::fault::Fault;
use crate::front::Front;
use crate::message::Message;
use crate::message_bytes::MessageBytes;
use crate::option_reading::read_options;
use mip_words::{Cookie, u64_at, u64_bytes};

/// The fields of a Home Test Init.
#[tactic(auto, unfolding(crate::specs::Reading::home_init_of))]
pub fn home_init(body: &[u8]) -> Result<Message<'_>, Fault>
    requires { 16 ≤ length body.now }
    ensures exact { Gives said result (home_init_of body.now) }
    ensures span { IfOk result (HasSpan body.now) }
{
    let cookie = Cookie(u64_at(body, 8));
    let options = read_options(body, 16)?;
    Ok(Message::HomeInit { cookie, options })
}

/// The fields of a Care-of Test Init.
#[tactic(auto, unfolding(crate::specs::Reading::careof_init_of))]
pub fn careof_init(body: &[u8]) -> Result<Message<'_>, Fault>
    requires { 16 ≤ length body.now }
    ensures exact { Gives said result (careof_init_of body.now) }
    ensures span { IfOk result (HasSpan body.now) }
{
    let cookie = Cookie(u64_at(body, 8));
    let options = read_options(body, 16)?;
    Ok(Message::CareofInit { cookie, options })
}

/// Appends the fields of a Home Test Init or a Care-of Test Init, from byte 6 on.
pub fn put_init(front: Front, cookie: Cookie) -> MessageBytes
    ensures ok { result ≡ front.bytes ++ (0 ∷ 0 ∷ number_bytes 8 cookie.0) }
    ensures fits { cookie.0 < 2 ^ 64 }
{
    let mut out = front.bytes;
    out.extend(&[0, 0]);
    out.extend(&u64_bytes(cookie.0));
    out
}
