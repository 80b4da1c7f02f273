//! A reader and a writer of std for tests: what each call does is chosen.

ghost use Rattle.std.specs.Prelude.{◌≤◌, IfOk};

use std::io::{Error, ErrorKind, Read, Result, Write};

/// What a call does.
#[derive(Clone, Copy)]
pub enum Turn {
    /// The turn moves so many bytes at most.
    Moves(usize),
    /// The turn fails.
    Fails,
}

/// Does these turns one after another, and the last of them for ever.
#[derive(Drop)]
pub struct Turns {
    turns: [Turn; 4],
    at: usize,
}

impl Turns {
    pub fn new(turns: [Turn; 4]) -> Turns {
        Turns { turns, at: 0 }
    }

    fn next(&mut self) -> Turn {
        let turn = self.turns[self.at.min(3)];
        self.at = self.at.min(3) + 1;
        turn
    }

    /// How many of so many bytes the next call moves.
    fn moved(&mut self, size: usize) -> Result<usize>
        ensures { IfOk result (λ n. n ≤ size) }
    {
        match self.next() {
            Turn::Moves(count) => Ok(count.min(size)),
            Turn::Fails => Err(Error::from(ErrorKind::BrokenPipe)),
        }
    }
}

impl Read for Turns {
    fn read(&mut self, into: &mut [u8]) -> Result<usize> {
        self.moved(into.len())
    }
}

impl Write for Turns {
    fn write(&mut self, piece: &[u8]) -> Result<usize> {
        self.moved(piece.len())
    }

    fn flush(&mut self) -> Result<()> {
        Ok(())
    }
}
