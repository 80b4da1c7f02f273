ghost use Rattle.std.specs.Prelude.{◌≡◌, ◌<◌, length, drop, Some, IfOk, OnOk, OnErr};
ghost use Rattle.mip_outside.specs.Moments.{AreMoments, Moments};

use crate::clock::Clock;
use mip_words::Memory;
use std::alloc::Global;
use std::marker::Model;

/// A clock that answers these moments one by one, then the last one again and again.
#[derive(Drop)]
pub struct SetClock {
    moments: Vec<u64>,
    at: usize,
    last: u64,
}

impl Model for SetClock {
    ghost Value = { Moments };

    ghost view = { λ c. record { last = c.last; ahead = drop c.at c.moments.items } };

    ghost invariant = { λ c. (c.at < length c.moments.items) × AreMoments c.last (drop c.at c.moments.items) };
}

impl SetClock {
    pub fn new(alloc: Global, moments: &[u64]) -> Result<SetClock, Memory>
        requires { AreMoments 0 moments.now }
        ensures { IfOk result (λ clock. clock ≡ record { last = 0; ahead = moments.now }) }
    {
        let moments = Vec::from_slice(alloc, moments)?;
        Ok(SetClock {
            moments,
            at: 0,
            last: 0,
        })
    }

    /// Puts new moments in place of the old.
    pub fn set(&mut self, alloc: Global, moments: &[u64]) -> Result<(), Memory>
        requires { AreMoments self.old.last moments.now }
        ensures ok { OnOk result (self.new ≡ record self.old { ahead = moments.now }) }
        ensures err { OnErr result (self.new ≡ self.old) }
    {
        self.moments = Vec::from_slice(alloc, moments)?;
        self.at = 0;
        Ok(())
    }
}

impl Clock for SetClock {
    ghost last = { λ clock. clock.last };

    ghost ahead = { λ clock. Some clock.ahead };

    fn now(&mut self) -> u64 {
        self.last = self.moments[self.at];
        if self.at + 1 < self.moments.len() {
            self.at += 1;
        }
        self.last
    }
}
