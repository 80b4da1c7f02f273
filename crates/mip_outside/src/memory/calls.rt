ghost use Rattle.std.specs.Prelude.{◌≡◌, ◌+◌, ◌-◌, ◌^◌, min, ◌==◌, IfOk};
ghost use Rattle.std.specs.List.{list_any};

use mip_words::Memory;
use std::alloc::Global;

/// The calls that were made, and the numbers, from 1, of those that are to fail.
#[derive(Drop)]
pub struct Calls {
    pub made: u64,
    pub fails: Vec<u64>,
}

impl Calls {
    pub fn new(alloc: Global, fails: &[u64]) -> Result<Calls, Memory>
        ensures made { IfOk result (λ calls. calls.made ≡ 0) }
        ensures fails { IfOk result (λ calls. calls.fails.items ≡ fails.now) }
    {
        let fails = Vec::from_slice(alloc, fails)?;
        Ok(Calls { made: 0, fails })
    }

    /// Counts one more call, and says whether it is to fail.
    pub fn next_fails(&mut self) -> bool
        ensures made { self.new.made ≡ min (self.old.made + 1) (2 ^ 64 - 1) }
        ensures fails { self.new.fails.items ≡ self.old.fails.items }
        ensures answer { result ≡ list_any (λ number. number == self.new.made) self.new.fails.items }
    {
        self.made = self.made.saturating_add(1);
        self.fails.contains(&self.made)
    }
}
