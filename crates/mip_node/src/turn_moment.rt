ghost use Rattle.std.specs.Prelude.{◌<◌, ◌^◌};

use mip_words::Moment;

/// The moment of a turn. A clock told it, so it is far from the last one that there is.
#[derive(Clone, Copy)]
pub struct TurnMoment {
    pub moment: Moment,
    pub ghost early: { moment.0 < 2 ^ 62 },
}
