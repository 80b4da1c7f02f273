ghost use Rattle.std.specs.Prelude.{◌<◌, ◌^◌};

use crate::call::Call;
use mip_words::Moment;

/// What a node of a run is asked, and when: the moment is far from the last one that there is.
#[derive(Drop)]
pub struct CallAt<'a> {
    pub now: Moment,
    pub call: Call<'a>,
    ghost early: { now.0 < 2 ^ 62 },
}
