ghost use Rattle.std.specs.Prelude.{◌≡◌};
ghost use Rattle.mip_bulist.specs.Timers.{timer_place_of};

/// What a timer of the home registration is set for (RFC 6275 sections 11.4.1, 11.7.1 and 11.8).
#[derive(Clone, Copy, Debug, PartialEq, Eq)]
pub enum HomeTimer {
    /// To send the last registration or deregistration again, as long as it is not acknowledged.
    Resend,
    /// To renew the registration before it ends.
    Renew,
    /// The end of the registration.
    End,
    /// To ask for home agents again, or to give the discovery up.
    Discover,
}

impl HomeTimer {
    /// Its place among the timers of the home registration.
    pub fn place(self) -> u8
        ensures { result ≡ timer_place_of self }
    {
        match self {
            HomeTimer::Resend => 0,
            HomeTimer::Renew => 1,
            HomeTimer::End => 2,
            HomeTimer::Discover => 3,
        }
    }
}
