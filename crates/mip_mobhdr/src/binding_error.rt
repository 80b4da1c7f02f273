ghost use Rattle.std.specs.Prelude.{◌≡◌, ◌^◌, ◌<◌, ◌≤◌, ◌∷◌, ◌++◌, length, IfOk};
ghost use Rattle.mip_words.specs.Addresses.{address_bytes};
ghost use Rattle.mip_words.specs.Steps.{Gives};
ghost use Rattle.mip_mobhdr.specs.Said.{said, HasSpan};
ghost use Rattle.mip_mobhdr.specs.Reading.{error_of};

use crate::fault::Fault;
use crate::front::Front;
use crate::message::Message;
use crate::message_bytes::MessageBytes;
use crate::option_reading::read_options;
use mip_words::Address;

/// The fields of a Binding Error.
#[tactic(auto, unfolding(crate::specs::Reading::error_of))]
pub fn binding_error(body: &[u8]) -> Result<Message<'_>, Fault>
    requires { 24 ≤ length body.now }
    ensures exact { Gives said result (error_of body.now) }
    ensures span { IfOk result (HasSpan body.now) }
{
    let options = read_options(body, 24)?;
    Ok(Message::Error {
        status: body[6],
        home: Address::at(body, 8),
        options,
    })
}

/// Appends the fields of a Binding Error, from byte 6 on.
pub fn put_error(front: Front, status: u8, home: Address) -> MessageBytes
    ensures ok { result ≡ front.bytes ++ (status ∷ 0 ∷ address_bytes home) }
    ensures fits { home.0 < 2 ^ 128 }
{
    let mut out = front.bytes;
    out.extend(&[status, 0]);
    out.extend(&home.bytes());
    out
}
