ghost use Rattle.std.specs.Prelude.{◌≡◌, ℕ, None};

use crate::faults::Faults;
use crate::put_fault::PutFault;
use crate::sink::Sink;
use std::io::Write;
use std::marker::Model;

/// What a writer of std takes.
#[derive(Drop)]
pub struct StdSink<W: Write + Drop> {
    writer: W,
    faults: Faults,
}

impl<W: Write + Drop> Model for StdSink<W> {
    ghost Value = { ℕ };

    ghost view = { λ s. s.faults.0 };
}

impl<W: Write + Drop> StdSink<W> {
    pub fn new(writer: W) -> StdSink<W>
        ensures { result ≡ 0 }
    {
        StdSink {
            writer,
            faults: Faults(0),
        }
    }
}

impl<W: Write + Drop> Sink for StdSink<W> {
    ghost held = { λ _. None };

    ghost faults = { λ faults. faults };

    fn give(&mut self, piece: &[u8]) -> Result<usize, PutFault> {
        match self.writer.write(piece) {
            Ok(count) if count > 0 || piece.is_empty() => Ok(count),
            _ => {
                self.faults.raise();
                Err(PutFault::Failed)
            }
        }
    }
}
