ghost use Rattle.std.specs.Prelude.{◌≡◌, ◌≤◌, ◌++◌, length, OnOk};
ghost use Rattle.mip_mobhdr.specs.Reading.{message_of};
ghost use Rattle.mip_icmp.specs.Reading.{icmp_of};
ghost use Rattle.mip_explain.specs.Listing.{mobility_lines, icmp_lines, body_lines};

use crate::message_listing::put_message;
use crate::rows::{put_body_line, put_number_line, put_word_line};
use crate::words::fault_word;
use mip_icmp::read_icmp;
use mip_ipv6::Head;
use mip_mobhdr::read_message;
use mip_words::protocol::{ICMPV6, MOBILITY_HEADER};
use mip_words::{Address, Bytes, Memory};

fn put_mobility(
    out: &mut Bytes,
    source: Address,
    destination: Address,
    body: &[u8],
) -> Result<(), Memory>
    ensures { OnOk result (out.new ≡ out.old ++ mobility_lines (message_of source destination body.now)) }
{
    match read_message(source, destination, body) {
        Ok(message) => put_message(out, &message),
        Err(fault) => put_word_line(out, b"fault", fault_word(fault)),
    }
}

fn put_icmp(
    out: &mut Bytes,
    source: Address,
    destination: Address,
    body: &[u8],
) -> Result<(), Memory>
    requires { length body.now ≤ 65535 }
    ensures { OnOk result (out.new ≡ out.old ++ icmp_lines (icmp_of source destination body.now)) }
{
    match read_icmp(source, destination, body) {
        Ok(message) => put_number_line(out, b"icmp", u64::from(message.kind())),
        Err(_) => put_word_line(out, b"fault", b"icmp"),
    }
}

/// Appends what the body says.
#[tactic(auto, unfolding(crate::specs::Listing::body_lines))]
pub(crate) fn put_body(out: &mut Bytes, head: &Head, body: &[u8]) -> Result<(), Memory>
    requires { length body.now ≤ 65535 }
    ensures { OnOk result (out.new ≡ out.old ++ body_lines head.now body.now) }
{
    match head.proto {
        MOBILITY_HEADER => put_mobility(out, head.sender(), head.receiver(), body),
        ICMPV6 => put_icmp(out, head.sender(), head.receiver(), body),
        _ => put_body_line(out, b"body", body),
    }
}
