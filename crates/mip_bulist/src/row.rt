ghost use Rattle.std.specs.Prelude.{◌≡◌};
ghost use Rattle.mip_bulist.specs.Rows.{rested_row};

use crate::any::Any;
use mip_words::Address;

/// A peer, with its trial where that is in.
#[derive(Debug, Drop)]
pub struct Row {
    pub(crate) peer: Address,
    pub(crate) trial: Option<Any>,
}

impl Row {
    /// Gives up what is under way.
    pub(crate) fn rest(&mut self)
        ensures { self.new ≡ rested_row self.old }
    {
        self.trial = match self.trial.take() {
            Some(trial) => Some(Any::Idle(trial.idle())),
            None => None,
        };
    }
}
