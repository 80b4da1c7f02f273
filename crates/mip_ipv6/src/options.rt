//! The Destination Options header and its Home Address option.

ghost use Rattle.std.specs.Prelude.{◌≤◌, ◌<◌, ◌+◌, length, slice_index, IfOk, None};
ghost use Rattle.mip_words.specs.Steps.{Gives};
ghost use Rattle.mip_ipv6.specs.Reading.{home_option, option_at, options_after, options_header};
ghost use Rattle.mip_ipv6.specs.ReadingLaws.{walk};

use crate::not_packet::NotPacket;
use crate::walked::Walked;
use mip_words::Address;

const DESTINATION_OPTIONS: u8 = 60;

const PAD1: u8 = 0;

const HOME_ADDRESS: u8 = 201;

/// The Home Address option, its length byte first.
#[tactic(auto, unfolding(crate::specs::Reading::home_option))]
fn home_of(home: Option<Address>, rest: &[u8]) -> Result<(Option<Address>, usize), NotPacket>
    requires filled { 0 < length rest.now }
    requires whole { slice_index rest.now 0 + 1 ≤ length rest.now }
    ensures exact { Gives (λ x. x) result (home_option home rest.now) }
    ensures inside { IfOk result (λ x. x.1 ≤ length rest.now) }
{
    if rest[0] != 16 || home.is_some() {
        return Err(NotPacket::Option(HOME_ADDRESS));
    }
    let address = Address::at(rest, 1);
    if !address.routable() {
        return Err(NotPacket::Option(HOME_ADDRESS));
    }
    Ok((Some(address), 17))
}

/// One option, from the byte behind its type: the home address so far, and the number of bytes that it takes.
#[tactic(auto, unfolding(crate::specs::Reading::option_at))]
fn option_of(
    kind: u8,
    home: Option<Address>,
    rest: &[u8],
) -> Result<(Option<Address>, usize), NotPacket>
    ensures exact { Gives (λ x. x) result (option_at kind home rest.now) }
    ensures inside { IfOk result (λ x. x.1 ≤ length rest.now) }
{
    if kind == PAD1 {
        return Ok((home, 0));
    }
    if rest.is_empty() || rest.len() < rest[0] as usize + 1 {
        return Err(NotPacket::Option(kind));
    }
    if kind == HOME_ADDRESS {
        return home_of(home, rest);
    }
    if kind < 64 {
        return Ok((home, rest[0] as usize + 1));
    }
    Err(NotPacket::Option(kind))
}

/// The home address in the options of an area.
#[tactic(auto, using(crate::proofs::Walking::passes_pad, crate::proofs::Walking::goes_on, crate::proofs::Walking::stops, crate::proofs::Walking::is_done))]
fn home_in(area: &[u8]) -> Result<Option<Address>, NotPacket>
    ensures exact { Gives (λ x. x) result (options_after 0 None area.now) }
{
    let mut home = None;
    let mut rest = area;
    while !rest.is_empty() {
        let (_, more) = rest.split_at(1);
        // Pad1 is one byte and leaves the home address as it is.
        if rest[0] == PAD1 {
            rest = more;
            continue;
        }
        let (found, size) = option_of(rest[0], home, more)?;
        let (_, behind) = more.split_at(size);
        home = found;
        rest = behind;
    }
    Ok(home)
}

/// The Destination Options header, where it is the next one.
#[tactic(auto, unfolding(crate::specs::Reading::options_header))]
pub(crate) fn walk_options(next: u8, bytes: &[u8]) -> Result<Walked<'_>, NotPacket>
    ensures exact { Gives walk result (options_header next bytes.now) }
{
    if next != DESTINATION_OPTIONS {
        return Ok(Walked {
            found: None,
            next,
            rest: bytes,
        });
    }
    if bytes.len() < 2 {
        return Err(NotPacket::Short);
    }
    let size = 8 * bytes[1] as usize + 8;
    if bytes.len() < size {
        return Err(NotPacket::Short);
    }
    let (header, rest) = bytes.split_at(size);
    let (_, area) = header.split_at(2);
    let found = home_in(area)?;
    Ok(Walked {
        found,
        next: bytes[0],
        rest,
    })
}
