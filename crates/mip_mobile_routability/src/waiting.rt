ghost use Rattle.std.specs.Prelude.{◌<◌, ◌^◌};

use mip_mobile_context::PeerRow;
use mip_words::{Address, Moment};

/// What an acknowledgement needs of the trial that waits for it.
#[derive(Clone, Copy)]
pub struct Waiting {
    pub at: PeerRow,
    /// The care-of address that the update is to bind; `None` where it deletes.
    pub binds_to: Option<Address>,
    /// When the update was made.
    pub sent: Moment,
    pub ghost early: { sent.0 < 2 ^ 62 },
}
