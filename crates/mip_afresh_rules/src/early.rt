ghost use Rattle.std.specs.Prelude.{◌≡◌, ◌<◌, ◌^◌, IfOk};

use mip_words::{Memory, Moment};

/// No run comes to this moment.
const LATE: u64 = 0x4000_0000_0000_0000;

/// A moment to which a run can come: it is far from the last one that there is.
#[derive(Clone, Copy)]
pub struct Early {
    pub moment: Moment,
    pub ghost early: { moment.0 < 2 ^ 62 },
}

impl Early {
    /// This moment. One to which no run comes is answered as if memory had run out.
    pub fn new(moment: Moment) -> Result<Early, Memory>
        ensures { IfOk result (λ e. e.moment ≡ moment) }
    {
        if moment.0 >= LATE {
            return Err(Memory);
        }
        Ok(Early { moment })
    }
}
