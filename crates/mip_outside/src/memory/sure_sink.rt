ghost use Rattle.std.specs.Prelude.{◌≡◌, ℕ, List, [], Some, IfOk};

use crate::put_fault::PutFault;
use crate::sink::Sink;
use mip_words::{Bytes, Memory};
use std::alloc::Global;
use std::marker::Model;

/// A sink that holds what it takes. It never fails.
#[derive(Drop)]
pub struct SureSink {
    bytes: Bytes,
}

impl Model for SureSink {
    ghost Value = { List ℕ };

    ghost view = { λ s. s.bytes };
}

impl SureSink {
    pub fn new(alloc: Global) -> Result<SureSink, Memory>
        ensures { IfOk result (λ sink. sink ≡ []) }
    {
        Ok(SureSink {
            bytes: Bytes::new(alloc),
        })
    }

    /// What it holds.
    pub fn bytes(&self) -> &[u8]
        ensures { result.now ≡ self.now }
    {
        self.bytes.as_slice()
    }
}

impl Sink for SureSink {
    ghost held = { λ sink. Some sink };

    ghost faults = { λ _. 0 };

    fn give(&mut self, piece: &[u8]) -> Result<usize, PutFault> {
        self.bytes.extend(piece)?;
        Ok(piece.len())
    }
}
