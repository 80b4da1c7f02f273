ghost use Rattle.std.specs.Prelude.{◌≡◌, ◌≤◌, ◌<◌, [], drop, take, length, OnOk, OnErr, IfOk, IsErrOf};
ghost use Rattle.std.specs.Io.KnownBytes.{append_known};
ghost use Rattle.mip_outside.specs.Cause.{Rose};
ghost use Rattle.mip_outside.specs.Waiting.{held_by};

use crate::put_fault::PutFault;
use crate::sink::Sink;
use mip_words::{Bytes, Memory};
use std::alloc::Global;
use std::marker::Model;

/// A sink that keeps back what it takes, as far as it has room, and puts it on to another sink in one piece.
/// What waits when it is dropped is lost: `flush` first.
#[derive(Drop)]
pub struct Buffered<K: Sink + Drop> {
    sink: K,
    bytes: Bytes,
    at: usize,
    room: usize,
}

impl<K: Sink + Drop> Model for Buffered<K> {
    ghost use Rattle.std.specs.Prelude.{◌≤◌, drop, length};
    ghost use Rattle.mip_outside.specs.Waiting.{Buffer};

    ghost Value = { Buffer };

    ghost view = { λ b. record { put_on = K.held b.sink; waiting = drop b.at b.bytes; faults = K.faults b.sink } };

    ghost invariant = { λ b. b.at ≤ length b.bytes };
}

impl<K: Sink + Drop> Buffered<K> {
    /// Nothing waits. A room of 0 puts on each piece at once.
    pub fn new(alloc: Global, sink: K, room: usize) -> Result<Buffered<K>, Memory>
        ensures { IfOk result (λ b. b ≡ record { put_on = K.held sink; waiting = []; faults = K.faults sink }) }
    {
        Ok(Buffered {
            sink,
            bytes: Bytes::with_capacity(alloc, room)?,
            at: 0,
            room,
        })
    }

    /// The sink that bytes are put on to.
    pub fn inner(&self) -> &K
        ensures { self.now.put_on ≡ K.held result.now }
    {
        &self.sink
    }

    /// Puts on all that waits. After a fault what was not put on waits still.
    pub fn flush(&mut self) -> Result<(), PutFault>
        ensures held { held_by self.new ≡ held_by self.old }
        ensures ok { OnOk result (self.new.waiting ≡ []) }
        ensures no_fewer { self.old.faults ≤ self.new.faults }
        ensures cause { IsErrOf result PutFault.Failed → Rose self.old.faults self.new.faults }
    {
        put_on(&mut self.sink, self.bytes.as_slice(), &mut self.at)?;
        self.bytes.clear();
        self.at = 0;
        Ok(())
    }

    /// Puts on a piece past the room, where nothing waits.
    #[tactic(auto, using(crate::proofs::Known::put_through))]
    fn give_through(&mut self, piece: &[u8]) -> Result<usize, PutFault>
        requires { self.old.waiting ≡ [] }
        ensures within { IfOk result (λ n. n ≤ length piece.now) }
        ensures some { IfOk result (λ n. 0 < length piece.now → 0 < n) }
        ensures given { IfOk result (λ n. held_by self.new ≡ append_known (held_by self.old) (take n piece.now)) }
        ensures err { OnErr result (held_by self.new ≡ held_by self.old) }
        ensures no_fewer { self.old.faults ≤ self.new.faults }
        ensures cause { IsErrOf result PutFault.Failed → Rose self.old.faults self.new.faults }
    {
        self.sink.give(piece)
    }
}

impl<K: Sink + Drop> Sink for Buffered<K> {
    ghost held = { λ b. held_by b };

    ghost faults = { λ b. b.faults };

    fn give(&mut self, piece: &[u8]) -> Result<usize, PutFault> {
        if self.room - self.bytes.len().min(self.room) >= piece.len() {
            self.bytes.extend(piece)?;
            return Ok(piece.len());
        }
        self.flush()?;
        if self.room < piece.len() {
            return self.give_through(piece);
        }
        self.bytes.extend(piece)?;
        Ok(piece.len())
    }
}

/// Puts on these bytes from a place on, and says how far that came.
#[tactic(auto, using(crate::proofs::Known::Rose_since))]
fn put_on<K: Sink>(sink: &mut K, bytes: &[u8], at: &mut usize) -> Result<(), PutFault>
    requires { at.old ≤ length bytes.now }
    ensures within { at.new ≤ length bytes.now }
    ensures held { append_known (K.held sink.new) (drop at.new bytes.now) ≡ append_known (K.held sink.old) (drop at.old bytes.now) }
    ensures ok { OnOk result (drop at.new bytes.now ≡ []) }
    ensures no_fewer { K.faults sink.old ≤ K.faults sink.new }
    ensures cause { IsErrOf result PutFault.Failed → Rose (K.faults sink.old) (K.faults sink.new) }
{
    while *at < bytes.len() {
        *at += sink.give(&bytes[*at..])?;
    }
    Ok(())
}
