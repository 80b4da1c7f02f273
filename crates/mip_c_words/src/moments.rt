//! Moments as C gives them.

ghost use Rattle.std.specs.Prelude.{◌≡◌};
ghost use Rattle.mip_c_words.specs.Moments.{is_late};

use mip_words::Moment;

/// Whether a moment is before that of the last call, or too far off.
pub fn is_late(last: Moment, now: Moment) -> bool
    ensures { result ≡ is_late last.0 now.0 }
{
    now.0 < last.0 || !(now.0 < 1 << 62)
}
