ghost use Rattle.std.specs.Prelude.{◌≡◌, Some};
ghost use Rattle.mip_bulist.specs.Trials.{is_too_soon, within_second};

use mip_words::Moment;

/// The time in which at most three updates go to a peer, in milliseconds (RFC 6275 section 12, MAX_UPDATE_RATE); the three are the fields of `Recent`.
const SECOND: u64 = 1_000;

/// The moments of a trial's last three updates.
#[derive(Clone, Copy, Debug, PartialEq, Eq)]
pub struct Recent {
    pub newest: Option<Moment>,
    pub middle: Option<Moment>,
    pub oldest: Option<Moment>,
}

impl Recent {
    /// Whether all three were made less than a second before.
    pub fn is_full(&self, now: Moment) -> bool
        ensures { result ≡ is_too_soon now self.now }
    {
        is_within(now, self.newest) && is_within(now, self.middle) && is_within(now, self.oldest)
    }

    /// The moments after one more update.
    pub fn with(&self, now: Moment) -> Recent
        ensures { result ≡ record { newest = Some now; middle = self.now.newest; oldest = self.now.middle } }
    {
        Recent {
            newest: Some(now),
            middle: self.newest,
            oldest: self.middle,
        }
    }
}

fn is_within(now: Moment, made: Option<Moment>) -> bool
    ensures { result ≡ within_second now made }
{
    match made {
        Some(at) => now.0.saturating_sub(at.0) < SECOND,
        None => false,
    }
}
