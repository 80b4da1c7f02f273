//! Parameter Problem, type 4 (RFC 4443 section 3.4).

ghost use Rattle.std.specs.Prelude.{◌≡◌, ◌≤◌, ◌<◌, ◌^◌, ◌++◌, length, OnOk};
ghost use Rattle.mip_icmp.specs.Said.{Parameter, said, HasSpan};
ghost use Rattle.mip_icmp.specs.Reading.{parameter_in};
ghost use Rattle.mip_icmp.specs.Spelling.{unsummed};

use crate::message::Icmp;
use mip_words::{Bytes, Memory, u32_at, u32_bytes};

#[tactic(auto, unfolding(crate::specs::Reading::parameter_in))]
pub(crate) fn parameter_of(body: &[u8]) -> Icmp<'_>
    requires { 8 ≤ length body.now }
    ensures value { said result ≡ parameter_in body.now }
    ensures span { HasSpan body.now result }
{
    let (_, quoted) = body.split_at(8);
    Icmp::Parameter {
        pointer: u32_at(body, 4),
        quoted,
    }
}

/// Appends the message with a checksum of zero.
#[tactic(auto, unfolding(crate::specs::Spelling::unsummed))]
pub(crate) fn put_parameter(out: &mut Bytes, pointer: u32, quoted: &[u8]) -> Result<(), Memory>
    ensures bytes { OnOk result (out.new ≡ out.old ++ unsummed (Parameter pointer quoted.now)) }
    ensures fits { pointer < 2 ^ 32 }
{
    out.extend(&[4, 0, 0, 0])?;
    out.extend(&u32_bytes(pointer))?;
    out.extend(quoted)
}
