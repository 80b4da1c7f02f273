ghost use Rattle.std.specs.Prelude.{◌≡◌};
ghost use Rattle.mip_rules_mobile.specs.Trials.{lacks_home, lacks_careof};

use mip_bulist::{Probing, Trial};
use mip_words::Cookie;

/// Which tests of a trial are missing, and the cookies that its inits ask for them with.
#[derive(Clone, Copy, Debug, PartialEq, Eq)]
pub struct Missing {
    pub home: bool,
    pub home_cookie: Cookie,
    pub careof: bool,
    pub careof_cookie: Cookie,
}

impl Missing {
    pub fn of(trial: &Trial<Probing>) -> Missing
        ensures home { result.home ≡ lacks_home trial.now }
        ensures home_cookie { result.home_cookie ≡ trial.now.state.home_cookie }
        ensures careof { result.careof ≡ lacks_careof trial.now }
        ensures careof_cookie { result.careof_cookie ≡ trial.now.state.careof_cookie }
    {
        Missing {
            home: trial.lacks_home(),
            home_cookie: trial.home_cookie(),
            careof: trial.lacks_careof(),
            careof_cookie: trial.careof_cookie(),
        }
    }
}
