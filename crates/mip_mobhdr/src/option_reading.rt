//! Reading the options of a message.

ghost use Rattle.std.specs.Prelude.{◌≡◌, ◌+◌, ◌<◌, ◌≤◌, length, drop, take, slice_index, Ok, IfOk, IsTrue};
ghost use Rattle.mip_mobhdr.specs.OptionValues.{Values, values, set_values};
ghost use Rattle.mip_mobhdr.specs.OptionReading.{is_length_of, is_seen, is_number, is_first_number, with_value, option_at, options_of, GivesAt};
ghost use Rattle.mip_mobhdr.specs.OptionSpelling.{IsSpelled};

use crate::bad_option::BadOption;
use crate::indices::Indices;
use crate::option_set::OptionSet;
use crate::options::Options;
use mip_words::{Address, u16_at};

/// The options of a message, from a place to its end.
pub fn read_options(message: &[u8], start: usize) -> Result<Options<'_>, BadOption>
    requires { start ≤ length message.now }
    ensures found { IfOk result (λ o. IsSpelled (values o) (drop start message.now)) }
    ensures only { (v : Values) → IsSpelled v (drop start message.now) → GivesAt values result (Ok v) }
    ensures exact { GivesAt values result (options_of start message.now) }
    ensures span { IfOk result (λ o. o.span.now ≡ drop start message.now) }
{
    spanned(message, start)
}

fn spanned(message: &[u8], start: usize) -> Result<Options<'_>, BadOption>
    requires { start ≤ length message.now }
    ensures exact { GivesAt values result (options_of start message.now) }
    ensures span { IfOk result (λ o. o.span.now ≡ drop start message.now) }
{
    let seen = options_from(message, start)?;
    let (_, span) = message.split_at(start);
    Ok(Options {
        advice: seen.advice,
        alternate: seen.alternate,
        nonces: seen.nonces,
        number: seen.number,
        authorization: seen.authorization,
        span,
    })
}

fn options_from(message: &[u8], start: usize) -> Result<OptionSet, BadOption>
    requires { start ≤ length message.now }
    ensures { GivesAt set_values result (options_of start message.now) }
{
    let mut seen = OptionSet {
        advice: None,
        alternate: None,
        nonces: None,
        number: None,
        authorization: None,
    };
    let (_, mut rest) = message.split_at(start);
    while !rest.is_empty() {
        let (_, more) = rest.split_at(1);
        // Pad1 has no length byte and leaves the values as they are.
        if rest[0] == 0 {
            rest = more;
            continue;
        }
        let place = message.len() - rest.len();
        let size = take_option(place, rest[0], more, &mut seen)?;
        let (_, behind) = more.split_at(size);
        rest = behind;
    }
    Ok(seen)
}

/// Puts the value of an option into those seen, and gives how many of the bytes behind its type it takes.
#[tactic(auto, unfolding(crate::specs::OptionReading::option_at))]
fn take_option(
    place: usize,
    kind: u8,
    more: &[u8],
    seen: &mut OptionSet,
) -> Result<usize, BadOption>
    requires { 0 < kind }
    ensures exact { GivesAt (λ size. (set_values seen.new, size)) result (option_at place kind (set_values seen.old) more.now) }
    ensures inside { IfOk result (λ size. size ≤ length more.now) }
{
    if more.is_empty() || more.len() < 1 + more[0] as usize {
        return Err(BadOption { place });
    }
    if !is_length_of(kind, more[0]) || is_seen(kind, seen) || (kind == 5 && more.len() > 13) {
        return Err(BadOption { place });
    }
    take_value(kind, more, seen);
    Ok(1 + more[0] as usize)
}

fn is_length_of(kind: u8, size: u8) -> bool
    ensures { result ≡ is_length_of kind size }
{
    match kind {
        2 => size == 2,
        3 => size == 16,
        4 => size == 4,
        5 => size == 12,
        _ => true,
    }
}

fn is_seen(kind: u8, seen: &OptionSet) -> bool
    ensures { result ≡ is_seen kind (set_values seen.now) }
{
    match kind {
        2 => seen.advice.is_some(),
        3 => seen.alternate.is_some(),
        4 => seen.nonces.is_some(),
        5 => seen.authorization.is_some(),
        _ => false,
    }
}

#[tactic(auto, unfolding(crate::specs::OptionReading::with_value))]
fn take_value(kind: u8, more: &[u8], seen: &mut OptionSet)
    requires length { IsTrue (is_length_of kind (slice_index more.now 0)) }
    requires inside { 1 + slice_index more.now 0 ≤ length more.now }
    ensures { set_values seen.new ≡ with_value kind (set_values seen.old) more.now }
{
    match kind {
        2 => seen.advice = Some(u16_at(more, 1)),
        3 => seen.alternate = Some(Address::at(more, 1)),
        4 => {
            seen.nonces = Some(Indices {
                home: u16_at(more, 1),
                careof: u16_at(more, 3),
            })
        }
        5 => seen.authorization = Some(authorization_at(more)),
        200 if is_first_number(seen, more) => seen.number = Some(u16_at(more, 1) as u8),
        _ => (),
    }
}

/// The first binding number is taken, and any other is passed over.
fn is_first_number(seen: &OptionSet, more: &[u8]) -> bool
    requires { 1 + slice_index more.now 0 ≤ length more.now }
    ensures first { result ≡ is_first_number (set_values seen.now) more.now }
    ensures number { IsTrue result → IsTrue (is_number more.now) }
{
    seen.number.is_none() && is_number(more)
}

/// Whether the bytes behind a type 200 are a binding number.
fn is_number(more: &[u8]) -> bool
    requires { 1 + slice_index more.now 0 ≤ length more.now }
    ensures { result ≡ is_number more.now }
{
    more[0] == 2 && u16_at(more, 1) < 8
}

fn authorization_at(more: &[u8]) -> [u8; 12]
    requires { 13 ≤ length more.now }
    ensures { result ≡ take 12 (drop 1 more.now) }
{
    let mut bytes = [0; 12];
    bytes.copy_from_slice(&more[1..13]);
    bytes
}
