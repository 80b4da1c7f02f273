//! What a verdict makes of who holds the home address.

ghost use Rattle.std.specs.Prelude.{◌≡◌};
ghost use Rattle.mip_reception.specs.Registrations.{deletes};
ghost use Rattle.mip_homeagent.specs.Changes.{holding_of, holding_by};

use mip_reception::{Registration, deletes};
use mip_rules_agent::HomeVerdict;

/// Whether an address is held from here on, with a verdict; `None` where that stays.
pub fn holding_by(held: bool, registration: &Registration, verdict: &HomeVerdict) -> Option<bool>
    ensures { result ≡ holding_by held registration.now verdict.now }
{
    match verdict {
        HomeVerdict::Accept { .. } => holding_of(held, deletes(registration)),
        _ => None,
    }
}

fn holding_of(held: bool, ends: bool) -> Option<bool>
    ensures { result ≡ holding_of held ends }
{
    if held == ends { Some(!held) } else { None }
}
