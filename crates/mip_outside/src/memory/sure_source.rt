ghost use Rattle.std.specs.Prelude.{◌≡◌, ℕ, ◌≤◌, List, length, drop, Some, IfOk};

use super::copying::copy_from;
use crate::failed::Failed;
use crate::source::Source;
use mip_words::Memory;
use std::alloc::Global;
use std::marker::Model;

/// A source of these bytes. It never fails.
#[derive(Drop)]
pub struct SureSource {
    bytes: Vec<u8>,
    at: usize,
}

impl Model for SureSource {
    ghost Value = { List ℕ };

    ghost view = { λ s. drop s.at s.bytes.items };

    ghost invariant = { λ s. s.at ≤ length s.bytes.items };
}

impl SureSource {
    pub fn new(alloc: Global, bytes: &[u8]) -> Result<SureSource, Memory>
        ensures { IfOk result (λ source. source ≡ bytes.now) }
    {
        let bytes = Vec::from_slice(alloc, bytes)?;
        Ok(SureSource { bytes, at: 0 })
    }
}

impl Source for SureSource {
    ghost left = { λ source. Some source };

    ghost faults = { λ _. 0 };

    fn take(&mut self, into: &mut [u8]) -> Result<usize, Failed> {
        let count = copy_from(into, &self.bytes, self.at);
        self.at += count;
        Ok(count)
    }
}
