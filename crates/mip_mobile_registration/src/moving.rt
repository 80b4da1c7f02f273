//! How a mobile comes to a link (RFC 6275 sections 11.5.1 to 11.5.5).

ghost use Rattle.std.specs.Prelude.{◌≡◌, ◌%◌, ◌<◌, OnOk};
ghost use Rattle.mip_rules_mobile.specs.Transitions.{Transition};
ghost use Rattle.mip_rules_mobile.specs.MovingRules.{address_under, arrives_by, arrives};
ghost use Rattle.mip_mobile_context.specs.Seen.{Shows};

use crate::home::register_or_deregister;
use mip_mobile_context::CallContext;
use mip_outside::Claim;
use mip_words::{Address, Memory, Prefix};
use std::alloc::Global;

/// The address under a prefix, with the interface of the home address.
pub fn address_under(home: Address, prefix: Prefix) -> Address
    ensures { result ≡ address_under home prefix.0 }
{
    prefix.join((home.0 % 0x1_0000_0000_0000_0000) as u64)
}

/// The address that it has under a prefix is used, unless somebody else holds it.
pub fn arrive(
    alloc: Global,
    context: &mut CallContext,
    prefix: Prefix,
    claim: Claim,
) -> Result<(), Memory>
    ensures { (t : Transition) → Shows context.old t → OnOk result (Shows context.new (arrives prefix.0 claim t)) }
{
    let address = address_under(context.home(), prefix);
    arrive_at(alloc, context, address, claim)
}

fn arrive_at(
    alloc: Global,
    context: &mut CallContext,
    address: Address,
    claim: Claim,
) -> Result<(), Memory>
    ensures { (t : Transition) → Shows context.old t → OnOk result (Shows context.new (arrives_by claim address t)) }
{
    match claim {
        Claim::Held => {
            context.claim(address)?;
            context.arrive(address)?;
            register_or_deregister(alloc, context)
        }
        Claim::Waiting => {
            context.arrive(address)?;
            register_or_deregister(alloc, context)
        }
        Claim::Taken { by } => context.find_taken(address, by),
    }
}
