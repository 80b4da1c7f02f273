ghost use Rattle.std.specs.Prelude.{◌≡◌, ◌≤◌, length, drop, Some, IfOk};
ghost use Rattle.mip_outside.specs.Failing.{Failing};

use super::calls::Calls;
use super::copying::copy_from;
use crate::failed::Failed;
use crate::faults::Faults;
use crate::source::Source;
use mip_words::Memory;
use std::alloc::Global;
use std::marker::Model;

/// A source of these bytes that fails at chosen calls.
#[derive(Drop)]
pub struct TextSource {
    bytes: Vec<u8>,
    at: usize,
    calls: Calls,
    faults: Faults,
}

impl Model for TextSource {
    ghost Value = { Failing };

    ghost view = { λ s. record {
      bytes = drop s.at s.bytes.items;
      faults = s.faults.0;
      calls = s.calls.made;
      fails = s.calls.fails.items;
    } };

    ghost invariant = { λ s. s.at ≤ length s.bytes.items };
}

impl TextSource {
    /// The numbers, from 1, are those of the calls of `take` that are to fail.
    pub fn new(alloc: Global, bytes: &[u8], fails: &[u64]) -> Result<TextSource, Memory>
        ensures { IfOk result (λ source. source ≡ record { bytes = bytes.now; faults = 0; calls = 0; fails = fails.now }) }
    {
        let bytes = Vec::from_slice(alloc, bytes)?;
        let calls = Calls::new(alloc, fails)?;
        Ok(TextSource {
            bytes,
            at: 0,
            calls,
            faults: Faults(0),
        })
    }
}

impl Source for TextSource {
    ghost left = { λ source. Some source.bytes };

    ghost faults = { λ source. source.faults };

    fn take(&mut self, into: &mut [u8]) -> Result<usize, Failed> {
        if self.calls.next_fails() {
            self.faults.raise();
            return Err(Failed);
        }
        let count = copy_from(into, &self.bytes, self.at);
        self.at += count;
        Ok(count)
    }
}
