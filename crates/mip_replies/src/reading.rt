//! Reading the input.

ghost use Rattle.std.specs.Prelude.{◌≡◌, ℕ, ◌+◌, ◌≤◌, List, ◌++◌, length, IfOk, OnOk, OnErr, IsErrOf};
ghost use Rattle.std.specs.Io.KnownBytes.{prepend_known, IsAtEnd};
ghost use Rattle.mip_outside.specs.Cause.{Rose};

use mip_outside::{Failed, Source};
use mip_words::{Bytes, Memory};
use std::alloc::Global;

/// How many bytes an input may have.
pub const LIMIT: usize = 16_777_216;

/// How many bytes are taken at a time.
const PIECE: usize = 16_384;

/// How many bytes are copied at a time: from some 2 KiB on a copy is one instruction that goes byte by byte.
const COPIED: usize = 1_024;

/// Why the input was not read.
#[derive(Clone, Copy, Debug, PartialEq, Eq)]
pub enum ReadFault {
    /// The source failed.
    Failed,
    /// Memory ran out.
    Memory,
}

impl From<Failed> for ReadFault {
    ghost use Rattle.mip_replies.specs.declared.reading.ReadFault.TheVariants.{Failed};

    ghost from_gives = { λ _ fault. fault ≡ Failed };

    fn from(_failed: Failed) -> ReadFault {
        ReadFault::Failed
    }
}

impl From<Memory> for ReadFault {
    ghost use Rattle.mip_replies.specs.declared.reading.ReadFault.TheVariants.{Memory};

    ghost from_gives = { λ _ fault. fault ≡ Memory };

    fn from(_memory: Memory) -> ReadFault {
        ReadFault::Memory
    }
}

/// Reads to the end, or until there are more bytes than an input may have.
#[tactic(auto, using(mip_outside::proofs::Known::prepend_more, mip_outside::proofs::Known::Rose_since))]
pub fn read_input<S: Source>(alloc: Global, source: &mut S) -> Result<Bytes, ReadFault>
    ensures read { IfOk result (λ bytes. S.left source.old ≡ prepend_known bytes (S.left source.new)) }
    ensures limit { IfOk result (λ bytes. length bytes ≤ LIMIT + 1) }
    ensures end { IfOk result (λ bytes. length bytes ≤ LIMIT → IsAtEnd (S.left source.new)) }
    ensures some { OnErr result ((bytes : List ℕ) × (length bytes ≤ LIMIT + 1) × (S.left source.old ≡ prepend_known bytes (S.left source.new))) }
    ensures no_fewer { S.faults source.old ≤ S.faults source.new }
    ensures cause { IsErrOf result ReadFault.Failed → Rose (S.faults source.old) (S.faults source.new) }
{
    let mut bytes = Bytes::new(alloc);
    let mut buffer = [0; PIECE];
    while bytes.len() <= LIMIT {
        let count = read_some(source, &mut buffer, &mut bytes)?;
        if count == 0 {
            return Ok(bytes);
        }
    }
    Ok(bytes)
}

/// Takes once from the source, by way of the buffer.
#[tactic(auto, using(mip_outside::proofs::Known::prepend_none))]
fn read_some<S: Source>(
    source: &mut S,
    buffer: &mut [u8; PIECE],
    bytes: &mut Bytes,
) -> Result<usize, ReadFault>
    requires { length bytes.old ≤ LIMIT }
    ensures ok { IfOk result (λ count. (length bytes.new ≡ length bytes.old + count) × (length bytes.new ≤ LIMIT + 1)) }
    ensures read { IfOk result (λ count. (piece : List ℕ) × (bytes.new ≡ bytes.old ++ piece) × (S.left source.old ≡ prepend_known piece (S.left source.new))) }
    ensures end { IfOk result (λ count. count ≡ 0 → IsAtEnd (S.left source.new)) }
    ensures some { OnErr result ((piece : List ℕ) × (length bytes.old + length piece ≤ LIMIT + 1) × (S.left source.old ≡ prepend_known piece (S.left source.new))) }
    ensures no_fewer { S.faults source.old ≤ S.faults source.new }
    ensures cause { IsErrOf result ReadFault.Failed → Rose (S.faults source.old) (S.faults source.new) }
{
    let room = (LIMIT + 1 - bytes.len()).min(buffer.len());
    let count = source.take(&mut buffer[..room])?;
    extend(bytes, &buffer[..count])?;
    Ok(count)
}

/// Appends bytes, some at a time.
fn extend(out: &mut Bytes, bytes: &[u8]) -> Result<(), Memory>
    ensures { OnOk result (out.new ≡ out.old ++ bytes.now) }
{
    let mut rest = bytes;
    while !rest.is_empty() {
        let (piece, behind) = rest.split_at(rest.len().min(COPIED));
        out.extend(piece)?;
        rest = behind;
    }
    Ok(())
}
