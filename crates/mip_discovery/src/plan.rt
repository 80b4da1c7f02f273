ghost use Rattle.std.specs.Prelude.{◌≡◌, ◌≤◌, ◌-◌, ◌==◌, if◌then◌else◌};
ghost use Rattle.mip_discovery.specs.Plan.{left_of};

use mip_words::Moment;

/// The lifetimes of a home prefix in seconds, counted from a moment; 4294967295 never falls (RFC 6275 section 10.6).
#[derive(Clone, Copy, Debug, PartialEq, Eq)]
pub struct PrefixPlan {
    pub valid: u32,
    pub preferred: u32,
    pub since: Moment,
}

impl PrefixPlan {
    /// The valid and the preferred seconds that are left, a begun second counted as gone.
    pub fn left(&self, now: Moment) -> (u32, u32)
        requires { self.now.since.0 ≤ now.0 }
        ensures { result ≡ (left_of self.now.valid self.now.since.0 now.0, left_of self.now.preferred self.now.since.0 now.0) }
    {
        let gone = (now.0 - self.since.0).div_ceil(1000);
        (less(self.valid, gone), less(self.preferred, gone))
    }
}

/// What is left after so many seconds.
fn less(seconds: u32, gone: u64) -> u32
    ensures { result ≡ (if seconds == 4294967295 then seconds else seconds - gone) }
{
    if seconds == u32::MAX {
        return seconds;
    }
    u64::from(seconds).saturating_sub(gone) as u32
}
