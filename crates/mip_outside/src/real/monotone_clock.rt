ghost use Rattle.std.specs.Prelude.{◌≡◌, ℕ, ◌<◌, ◌^◌, None};

use crate::clock::Clock;
use std::marker::Model;
use std::time::Instant;

/// The milliseconds since it was made. Where the system's clock cannot be read it answers its last
/// answer again.
#[derive(Drop)]
pub struct MonotoneClock<T: std::time::Clock + Drop> {
    system: T,
    start: Option<Instant>,
    last: u64,
}

impl<T: std::time::Clock + Drop> Model for MonotoneClock<T> {
    ghost Value = { ℕ };

    ghost view = { λ c. c.last };

    ghost invariant = { λ c. c.last < 2 ^ 62 };
}

impl<T: std::time::Clock + Drop> MonotoneClock<T> {
    pub fn new(system: T) -> MonotoneClock<T>
        ensures { result ≡ 0 }
    {
        let start = Instant::now(&system).ok();
        MonotoneClock {
            system,
            start,
            last: 0,
        }
    }
}

impl<T: std::time::Clock + Drop> Clock for MonotoneClock<T> {
    ghost last = { λ last. last };

    ghost ahead = { λ _. None };

    fn now(&mut self) -> u64 {
        if let (Some(start), Ok(moment)) = (self.start, Instant::now(&self.system)) {
            let passed = moment.duration_since(start).as_millis();
            if passed > self.last as u128 && passed < 0x4000_0000_0000_0000 {
                self.last = passed as u64;
            }
        }
        self.last
    }
}
