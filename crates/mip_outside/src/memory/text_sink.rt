ghost use Rattle.std.specs.Prelude.{◌≡◌, [], Some, IfOk};
ghost use Rattle.mip_outside.specs.Failing.{Failing};

use super::calls::Calls;
use crate::faults::Faults;
use crate::put_fault::PutFault;
use crate::sink::Sink;
use mip_words::{Bytes, Memory};
use std::alloc::Global;
use std::marker::Model;

/// A sink that holds what it takes, and fails at chosen calls.
#[derive(Drop)]
pub struct TextSink {
    bytes: Bytes,
    calls: Calls,
    faults: Faults,
}

impl Model for TextSink {
    ghost Value = { Failing };

    ghost view = { λ s. record {
      bytes = s.bytes;
      faults = s.faults.0;
      calls = s.calls.made;
      fails = s.calls.fails.items;
    } };
}

impl TextSink {
    /// The numbers, from 1, are those of the calls of `give` that are to fail.
    pub fn new(alloc: Global, fails: &[u64]) -> Result<TextSink, Memory>
        ensures { IfOk result (λ sink. sink ≡ record { bytes = []; faults = 0; calls = 0; fails = fails.now }) }
    {
        let calls = Calls::new(alloc, fails)?;
        Ok(TextSink {
            bytes: Bytes::new(alloc),
            calls,
            faults: Faults(0),
        })
    }

    /// What it holds.
    pub fn bytes(&self) -> &[u8]
        ensures { result.now ≡ self.now.bytes }
    {
        self.bytes.as_slice()
    }
}

impl Sink for TextSink {
    ghost held = { λ sink. Some sink.bytes };

    ghost faults = { λ sink. sink.faults };

    fn give(&mut self, piece: &[u8]) -> Result<usize, PutFault> {
        if self.calls.next_fails() {
            self.faults.raise();
            return Err(PutFault::Failed);
        }
        self.bytes.extend(piece)?;
        Ok(piece.len())
    }
}
