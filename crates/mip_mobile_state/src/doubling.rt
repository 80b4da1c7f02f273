//! How the time between two sendings grows (RFC 6275 section 11.8).

ghost use Rattle.std.specs.Prelude.{◌≡◌, ◌<◌, ◌^◌};
ghost use Rattle.mip_rules_mobile.specs.Timing.{doubled};

use mip_words::constants::{INITIAL_BINDACK_TIMEOUT, MAX_BINDACK_TIMEOUT};

/// The time after this one: twice as long, from the first one to the longest.
pub fn doubled(wait: u64) -> u64
    ensures value { result ≡ doubled wait }
    ensures small { result < 2 ^ 32 }
{
    if wait >= MAX_BINDACK_TIMEOUT {
        MAX_BINDACK_TIMEOUT
    } else {
        (2 * wait)
            .min(MAX_BINDACK_TIMEOUT)
            .max(INITIAL_BINDACK_TIMEOUT)
    }
}
