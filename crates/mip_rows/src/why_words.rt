//! The words for why a packet or a sending came to nothing.

ghost use Rattle.std.specs.Prelude.{◌≡◌, slice_get};
ghost use Rattle.std.specs.List.{position};
ghost use Rattle.std.specs.Str.{bytes_eq};
ghost use Rattle.mip_rows.specs.Whys.{why_word, gone_whys, unsent_whys, dropped_whys, why_among};

use mip_explain::{fault_word, refusal_word};
use mip_ipv6::NotPacket;
use mip_mobhdr::Fault;
use mip_words::Why;

/// The word of a refusal. A packet or message that is not read has the word of its listing.
#[tactic(auto, unfolding(crate::specs::Whys::why_word))]
pub fn why_word<'a>(why: Why) -> &'a [u8]
    ensures { result.now ≡ why_word why }
{
    match why {
        Why::NoLink => b"nolink",
        Why::Hop => b"hop",
        Why::NoHolder => b"noholder",
        Why::Shield => b"shield",
        Why::Detached => b"detached",
        Why::Unregistered => b"unregistered",
        Why::NoRoute => b"noroute",
        Why::Size => fault_word(Fault::Size),
        Why::Short => refusal_word(NotPacket::Short),
        Why::Version => refusal_word(NotPacket::Version),
        Why::Length => refusal_word(NotPacket::Length),
        Why::Header => refusal_word(NotPacket::Header(0)),
        Why::Route => refusal_word(NotPacket::Route),
        Why::Option => refusal_word(NotPacket::Option(0)),
        Why::Checksum => fault_word(Fault::Checksum),
        Why::Kind => fault_word(Fault::Unknown(0)),
        Why::Proto => fault_word(Fault::Proto),
        Why::HeaderLen => fault_word(Fault::HeaderLen),
        Why::MobilityOption => fault_word(Fault::Option { place: 0 }),
        Why::Address => b"address",
        Why::Probe => b"probe",
        Why::HomeOption => b"homeoption",
        Why::Unroutable => b"unroutable",
        Why::Options => b"options",
        Why::Authenticator => b"authenticator",
        Why::Role => b"role",
        Why::Icmp => b"icmp",
        Why::NoNext => b"none",
        Why::Unshielded => b"unshielded",
        Why::Entry => b"entry",
        Why::Nested => b"nested",
        Why::Cookie => b"cookie",
        Why::Ack => b"ack",
        Why::Error => b"error",
        Why::Refresh => b"refresh",
        Why::Frame => b"frame",
    }
}

/// The place of the one of these that has this word.
fn word_place(some: &[Why], field: &[u8]) -> Option<usize>
    ensures { result ≡ position (λ why. bytes_eq (why_word why) field.now) some.now }
{
    some.iter().position(|why| why_word(*why) == field)
}

fn at(some: &[Why], place: usize) -> Option<Why>
    ensures { result ≡ slice_get some.now place }
{
    some.get(place).copied()
}

/// The one of these that has this word.
#[tactic(auto, using(crate::proofs::WhyLaws::among_found, crate::proofs::WhyLaws::among_none))]
pub fn why_among(some: &[Why], field: &[u8]) -> Option<Why>
    ensures { result ≡ why_among some.now field.now }
{
    match word_place(some, field) {
        Some(place) => at(some, place),
        None => None,
    }
}

/// Why a packet reached nobody.
#[tactic(auto, unfolding(crate::specs::Whys::gone_whys))]
pub fn gone_whys() -> [Why; 4]
    ensures { result ≡ gone_whys }
{
    [Why::NoLink, Why::Hop, Why::NoHolder, Why::Shield]
}

/// Why a node could not send.
#[tactic(auto, unfolding(crate::specs::Whys::unsent_whys))]
pub fn unsent_whys() -> [Why; 4]
    ensures { result ≡ unsent_whys }
{
    [Why::Detached, Why::Unregistered, Why::NoRoute, Why::Size]
}

/// Why a node did nothing with a packet.
#[tactic(auto, unfolding(crate::specs::Whys::dropped_whys))]
pub fn dropped_whys() -> [Why; 30]
    ensures { result ≡ dropped_whys }
{
    [
        Why::Short,
        Why::Version,
        Why::Length,
        Why::Header,
        Why::Route,
        Why::Option,
        Why::Size,
        Why::Checksum,
        Why::Kind,
        Why::Proto,
        Why::HeaderLen,
        Why::MobilityOption,
        Why::Address,
        Why::Probe,
        Why::HomeOption,
        Why::Unroutable,
        Why::Options,
        Why::Authenticator,
        Why::Role,
        Why::Icmp,
        Why::NoNext,
        Why::Unshielded,
        Why::Entry,
        Why::Nested,
        Why::Hop,
        Why::Cookie,
        Why::Ack,
        Why::Error,
        Why::Refresh,
        Why::Frame,
    ]
}
