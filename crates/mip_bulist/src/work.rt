ghost use Rattle.std.specs.Prelude.{◌≡◌};
ghost use Rattle.mip_bulist.specs.Timers.{number_of};

use crate::home_timer::HomeTimer;

/// What a timer is set for.
#[derive(Clone, Copy, Debug, PartialEq, Eq)]
pub enum Work {
    /// To send this row's update again.
    Resend(u8),
    /// To start this row's tests anew, before its binding ends.
    Renew(u8),
    /// The end of this row's binding.
    End(u8),
    /// A timer of the home registration.
    Home(HomeTimer),
}

impl Work {
    /// A number that no other work has.
    pub fn number(self) -> u16
        ensures { result ≡ number_of self }
    {
        match self {
            Work::Resend(row) => 4 * u16::from(row),
            Work::Renew(row) => 4 * u16::from(row) + 1,
            Work::End(row) => 4 * u16::from(row) + 2,
            Work::Home(timer) => 4 * u16::from(timer.place()) + 3,
        }
    }
}
