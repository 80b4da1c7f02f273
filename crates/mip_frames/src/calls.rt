ghost use Rattle.std.specs.Prelude.{◌≡◌, ◌+◌, ◌-◌, ◌^◌, min, ◌==◌, IfOk};
ghost use Rattle.std.specs.List.{list_any};

use mip_words::Memory;
use std::alloc::Global;
use std::marker::Model;

/// The calls of one kind that were made, and the numbers, from 1, of those that are to fail.
#[derive(Drop)]
pub struct Calls {
    made: u64,
    fails: Vec<u64>,
}

impl Model for Calls {
    ghost use Rattle.mip_frames.specs.Failing.{Turns};

    ghost Value = { Turns };

    ghost view = { λ c. record { made = c.made; fails = c.fails.items } };
}

impl Calls {
    pub fn new(alloc: Global, fails: &[u64]) -> Result<Calls, Memory>
        ensures { IfOk result (λ calls. calls ≡ record { made = 0; fails = fails.now }) }
    {
        let fails = Vec::from_slice(alloc, fails)?;
        Ok(Calls { made: 0, fails })
    }

    /// Counts one more call, and says whether it is to fail.
    pub fn next_fails(&mut self) -> bool
        ensures made { self.new ≡ record self.old { made = min (self.old.made + 1) (2 ^ 64 - 1) } }
        ensures answer { result ≡ list_any (λ number. number == self.new.made) self.new.fails }
    {
        self.made = self.made.saturating_add(1);
        self.fails.contains(&self.made)
    }
}
