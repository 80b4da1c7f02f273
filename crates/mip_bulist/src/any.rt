ghost use Rattle.std.specs.Prelude.{◌≡◌};
ghost use Rattle.mip_bulist.specs.Rows.{peer_of_any, resting};

use crate::state::{Bound, Idle, Pending, Probing, Proved};
use crate::trial::Trial;
use mip_words::Address;

/// A trial in any state.
#[derive(Debug, Drop)]
pub enum Any {
    Idle(Trial<Idle>),
    Probing(Trial<Probing>),
    Proved(Trial<Proved>),
    Pending(Trial<Pending>),
    Bound(Trial<Bound>),
}

impl Any {
    /// The peer of the trial.
    pub fn peer(&self) -> Address
        ensures { result ≡ peer_of_any self.now }
    {
        match self {
            Any::Idle(trial) => trial.peer(),
            Any::Probing(trial) => trial.peer(),
            Any::Proved(trial) => trial.peer(),
            Any::Pending(trial) => trial.peer(),
            Any::Bound(trial) => trial.peer(),
        }
    }

    /// Gives up what is under way.
    pub fn idle(self) -> Trial<Idle>
        ensures { result ≡ resting self }
    {
        match self {
            Any::Idle(trial) => trial.idle(),
            Any::Probing(trial) => trial.idle(),
            Any::Proved(trial) => trial.idle(),
            Any::Pending(trial) => trial.idle(),
            Any::Bound(trial) => trial.idle(),
        }
    }
}
