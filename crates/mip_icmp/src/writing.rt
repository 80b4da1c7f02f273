ghost use Rattle.std.specs.Prelude.{◌≡◌, ◌≤◌, ◌++◌, length, Ok, IfOk, OnOk, IsTrue};
ghost use Rattle.mip_ipv6.specs.Sum.{is_right_sum};
ghost use Rattle.mip_icmp.specs.Said.{said_plain};
ghost use Rattle.mip_icmp.specs.Reading.{icmp_of};
ghost use Rattle.mip_icmp.specs.Spelling.{unsummed, icmp_bytes, IsWritable, IsIcmp};
ghost use Rattle.mip_icmp.specs.SpellingLaws.{Fits};

use crate::advertisement::put_advertisement;
use crate::discovery::{put_discover_ask, put_discover_reply};
use crate::parameter::put_parameter;
use crate::plain::PlainIcmp;
use crate::prefixes::{put_prefix_ask, put_prefix_reply};
use crate::reading::PROTO;
use mip_ipv6::checksum;
use mip_words::{Address, Bytes, Memory};
use std::alloc::Global;

/// Appends the message with a checksum of zero.
fn put_unsummed(out: &mut Bytes, message: &PlainIcmp) -> Result<(), Memory>
    ensures bytes { OnOk result (out.new ≡ out.old ++ unsummed (said_plain message.now)) }
    ensures fits { OnOk result (Fits (said_plain message.now)) }
{
    match message {
        PlainIcmp::Parameter { pointer, quoted } => put_parameter(out, *pointer, quoted.as_slice()),
        PlainIcmp::Advertisement {
            hop,
            agent,
            life,
            options,
        } => { put_advertisement(out, *hop, *agent, *life, *options) }
        PlainIcmp::DiscoverAsk { identifier } => put_discover_ask(out, *identifier),
        PlainIcmp::DiscoverReply { identifier, agents } => {
            put_discover_reply(out, *identifier, agents.as_slice())
        }
        PlainIcmp::PrefixAsk { identifier } => put_prefix_ask(out, *identifier),
        PlainIcmp::PrefixReply {
            identifier,
            options,
        } => put_prefix_reply(out, *identifier, *options),
    }
}

/// The message with a checksum of zero.
#[tactic(auto, using(crate::proofs::Canonical::unsummed_long, crate::proofs::Canonical::unsummed_size))]
fn unsummed_of(alloc: Global, message: &PlainIcmp) -> Result<Bytes, Memory>
    requires { IsWritable (said_plain message.now) }
    ensures bytes { IfOk result (λ b. b ≡ unsummed (said_plain message.now)) }
    ensures long { IfOk result (λ b. 8 ≤ length b) }
    ensures size { IfOk result (λ b. length b ≤ 65535) }
    ensures fits { OnOk result (Fits (said_plain message.now)) }
{
    let mut out = Bytes::new(alloc);
    put_unsummed(&mut out, message)?;
    Ok(out)
}

/// The message with the checksum that holds.
#[tactic(auto, unfolding(crate::specs::Spelling::icmp_bytes))]
fn summed(
    alloc: Global,
    source: Address,
    destination: Address,
    message: &PlainIcmp,
) -> Result<Bytes, Memory>
    requires { IsWritable (said_plain message.now) }
    ensures canonical { IfOk result (λ b. b ≡ icmp_bytes source destination (said_plain message.now)) }
    ensures sum { IfOk result (λ b. IsTrue (is_right_sum source destination 58 b)) }
    ensures fits { OnOk result (Fits (said_plain message.now)) }
{
    let mut bytes = unsummed_of(alloc, message)?;
    let sum = checksum(source, destination, PROTO, bytes.as_slice(), 2);
    bytes.set_u16(2, sum);
    Ok(bytes)
}

/// The canonical spelling of a message between these addresses, as `read_icmp` has them.
pub fn write_icmp(
    alloc: Global,
    source: Address,
    destination: Address,
    message: &PlainIcmp,
) -> Result<Bytes, Memory>
    requires { IsWritable (said_plain message.now) }
    ensures canonical { IfOk result (λ b. b ≡ icmp_bytes source destination (said_plain message.now)) }
    ensures spelled { IfOk result (IsIcmp source destination (said_plain message.now)) }
    ensures back { IfOk result (λ b. icmp_of source destination b ≡ Ok (said_plain message.now)) }
{
    summed(alloc, source, destination, message)
}
