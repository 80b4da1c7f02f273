//! Texts cut at a byte.

ghost use Rattle.std.specs.Prelude.{◌≡◌, ◌==◌, ◌+◌, ◌<◌, ◌≤◌, [], ◌∷◌, length, map, MatchOption, IfSome, IfOk};
ghost use Rattle.std.specs.List.{count_by, position};
ghost use Rattle.std.specs.Simd.Lanes.{mask_l};
ghost use Rattle.mip_lines.specs.Cutting.{parts, fields_of, texts};
ghost use Rattle.mip_lines.specs.Spaces.{is_space, end_of};

use arrayvec::ArrayVec;
use memchr::memchr;
use mip_words::Memory;
use std::alloc::Global;
use std::simd::prelude::*;

/// The most fields that are kept without memory being taken for them.
const FEW: usize = 12;

/// The fields of a line that has at most twelve.
pub type FewFields<'a> = ArrayVec<&'a [u8], FEW>;

#[tactic(auto, using(crate::proofs::Parts::first_place))]
fn place_of(byte: u8, bytes: &[u8]) -> Option<usize>
    ensures { result ≡ position (λ b. b == byte) bytes.now }
{
    memchr(byte, bytes)
}

/// What stands before the first such byte, and what stands behind it.
pub fn cut_at(byte: u8, bytes: &[u8]) -> Option<(&[u8], &[u8])>
    ensures parts { MatchOption result (parts byte bytes.now ≡ bytes.now ∷ []) (λ p. parts byte bytes.now ≡ p.0.now ∷ parts byte p.1.now) }
    ensures shorter { IfSome result (λ p. length p.0.now + length p.1.now + 1 ≡ length bytes.now) }
{
    let Some(place) = place_of(byte, bytes) else {
        return None;
    };
    let (front, behind) = bytes.split_at(place);
    let (_, rest) = behind.split_at(1);
    Some((front, rest))
}

fn count_spaces(line: &[u8]) -> usize
    ensures value { result ≡ count_by (λ b. b == 32) line.now }
    ensures within { result ≤ length line.now }
{
    let mut spaces = 0;
    for b in line {
        if *b == b' ' {
            spaces += 1;
        }
    }
    spaces
}

/// How many fields a line has.
#[tactic(auto, using(crate::proofs::Parts::fields_counted))]
fn count_fields(line: &[u8]) -> usize
    ensures { result ≡ length (fields_of line.now) }
{
    count_spaces(line) + 1
}

/// The fields of a line, in a list with room for this many.
fn fields_in_room(alloc: Global, room: usize, line: &[u8]) -> Result<Vec<&[u8]>, Memory>
    ensures { IfOk result (λ v. texts v.items ≡ fields_of line.now) }
{
    let mut fields = Vec::with_capacity(alloc, room)?;
    let mut rest = line;
    while let Some((field, more)) = cut_at(b' ', rest) {
        fields.push(field)?;
        rest = more;
    }
    fields.push(rest)?;
    Ok(fields)
}

/// The fields of a line, which lie between single spaces.
pub fn fields(alloc: Global, line: &[u8]) -> Result<Vec<&[u8]>, Memory>
    ensures { IfOk result (λ v. texts v.items ≡ fields_of line.now) }
{
    fields_in_room(alloc, count_fields(line), line)
}

/// The fields of a line that has so many at most; none, and no memory taken, where it has more.
pub fn fields_up_to(alloc: Global, most: usize, line: &[u8]) -> Result<Option<Vec<&[u8]>>, Memory>
    ensures { IfOk result (λ o. MatchOption o (most < length (fields_of line.now)) (λ v. texts v.items ≡ fields_of line.now)) }
{
    let count = count_fields(line);
    if most < count {
        return Ok(None);
    }
    Ok(Some(fields_in_room(alloc, count, line)?))
}

/// Which of sixteen bytes are spaces, the first in the lowest bit.
fn spaces_in(bytes: u8x16) -> u64
    ensures { result ≡ mask_l (map is_space bytes) }
{
    bytes.simd_eq(u8x16::splat(b' ')).to_bitmask()
}

/// Where the first space stands from a place on, or the line ends.
fn slow_end(line: &[u8], from: usize) -> usize
    requires { from ≤ length line.now }
    ensures { result ≡ end_of from line.now }
{
    let mut place = from;
    while place < line.len() && line[place] != b' ' {
        place += 1;
    }
    place
}

/// The same, sixteen bytes at a time.
fn end_of(line: &[u8], from: usize) -> usize
    requires { from ≤ length line.now }
    ensures { result ≡ end_of from line.now }
{
    let mut place = from;
    while line.len() - place >= 16 {
        let found = spaces_in(u8x16::from_slice(&line[place..]));
        if found != 0 {
            return place + found.trailing_zeros() as usize;
        }
        place += 16;
    }
    slow_end(line, place)
}

/// The fields of a line that has at most twelve; none where it has more. No memory is taken for them.
pub fn few_fields(line: &[u8]) -> Option<FewFields<'_>>
    ensures { MatchOption result (12 < length (fields_of line.now)) (λ v. texts v.items ≡ fields_of line.now) }
{
    let mut fields = FewFields::new();
    let mut start = 0;
    let mut end = end_of(line, 0);
    while end < line.len() {
        if fields.is_full() {
            return None;
        }
        fields.push(&line[start..end]);
        start = end + 1;
        end = end_of(line, start);
    }
    if fields.is_full() {
        return None;
    }
    fields.push(&line[start..]);
    Some(fields)
}
