ghost use Rattle.std.specs.Prelude.{◌≡◌, ◌^◌, ◌<◌, ◌≤◌, ◌++◌, length, take, drop, IfOk};
ghost use Rattle.mip_words.specs.Numbers.{number_bytes};
ghost use Rattle.mip_words.specs.Steps.{Gives};
ghost use Rattle.mip_mobhdr.specs.Said.{said, HasSpan};
ghost use Rattle.mip_mobhdr.specs.Reading.{home_test_of, careof_test_of};

use crate::fault::Fault;
use crate::front::Front;
use crate::message::Message;
use crate::message_bytes::MessageBytes;
use crate::option_reading::read_options;
use mip_words::{Cookie, Token, u16_at, u16_bytes, u64_at, u64_bytes};

/// The fields of a Home Test.
#[tactic(auto, unfolding(crate::specs::Reading::home_test_of))]
pub fn home_test(body: &[u8]) -> Result<Message<'_>, Fault>
    requires { 24 ≤ length body.now }
    ensures exact { Gives said result (home_test_of body.now) }
    ensures span { IfOk result (HasSpan body.now) }
{
    let options = read_options(body, 24)?;
    Ok(Message::HomeTest {
        index: u16_at(body, 6),
        cookie: Cookie(u64_at(body, 8)),
        token: token_at(body),
        options,
    })
}

/// The fields of a Care-of Test.
#[tactic(auto, unfolding(crate::specs::Reading::careof_test_of))]
pub fn careof_test(body: &[u8]) -> Result<Message<'_>, Fault>
    requires { 24 ≤ length body.now }
    ensures exact { Gives said result (careof_test_of body.now) }
    ensures span { IfOk result (HasSpan body.now) }
{
    let options = read_options(body, 24)?;
    Ok(Message::CareofTest {
        index: u16_at(body, 6),
        cookie: Cookie(u64_at(body, 8)),
        token: token_at(body),
        options,
    })
}

fn token_at(body: &[u8]) -> Token
    requires { 24 ≤ length body.now }
    ensures { result.0 ≡ take 8 (drop 16 body.now) }
{
    let mut token = [0; 8];
    token.copy_from_slice(&body[16..24]);
    Token(token)
}

/// Appends the fields of a Home Test or a Care-of Test, from byte 6 on.
pub fn put_test(front: Front, index: u16, cookie: Cookie, token: Token) -> MessageBytes
    ensures ok { result ≡ front.bytes ++ (number_bytes 2 index ++ (number_bytes 8 cookie.0 ++ token.0)) }
    ensures fits { (index < 2 ^ 16) × (cookie.0 < 2 ^ 64) × (length token.0 ≡ 8) }
{
    let mut out = front.bytes;
    out.extend(&u16_bytes(index));
    out.extend(&u64_bytes(cookie.0));
    out.extend(&token.0);
    out
}
