ghost use Rattle.std.specs.Prelude.{◌≡◌, ◌≤◌, ◌+◌, ◌-◌, ◌^◌, min};
ghost use Rattle.mip_outside.specs.Cause.{Rose};

use mip_outside::Failed;

/// How many calls failed. The last value of 64 bits stays.
#[derive(Clone, Copy)]
pub struct Faults(pub u64);

impl Faults {
    /// Counts one more, which is to be answered.
    pub fn raise(&mut self) -> Failed
        ensures one { self.new.0 ≡ min (self.old.0 + 1) (2 ^ 64 - 1) }
        ensures rose { Rose self.old.0 self.new.0 }
        ensures no_fewer { self.old.0 ≤ self.new.0 }
    {
        self.0 = self.0.saturating_add(1);
        Failed
    }
}
