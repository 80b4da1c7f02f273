//! The role of a node that is run by itself.

ghost use Rattle.std.specs.Prelude.{◌≡◌, IfOk, OnOk};
ghost use Rattle.mip_roles.specs.Calls.{asked, IsAskable};
ghost use Rattle.mip_roles.specs.Hosts.{kind_of};
ghost use Rattle.mip_config.specs.Facts.{address_of};
ghost use Rattle.mip_node.specs.Roles.{answers_at, role_after, has_due, IsBy, kind_in, is_mobile, new_role_of, detached, first_role};
ghost use Rattle.mip_node.specs.Settings.{said};

use crate::setting::Setting;
use crate::turn_moment::TurnMoment;
use mip_config::Role as Named;
use mip_entries::Answers;
use mip_roles::{BindingNumbers, Call, Kind, Role};
use mip_words::{Address, Memory, Moment};

/// The address that a node is known by: the home address of a mobile.
pub fn address_of(role: &Named) -> Address
    ensures { result ≡ address_of role.now }
{
    match role {
        Named::Agent { address, .. }
        | Named::Correspondent { address, .. }
        | Named::Mobile { address, .. } => *address,
    }
}

pub fn is_mobile(role: &Named) -> bool
    ensures { result ≡ is_mobile role.now }
{
    matches!(role, Named::Mobile { .. })
}

/// What the configured node is, with the homes that it serves.
fn kind_of(setting: &Setting<'_>) -> Result<Kind, Memory>
    ensures { IfOk result (λ k. kind_of k ≡ kind_in (said setting.now)) }
{
    match setting.config.role {
        Named::Correspondent { room, .. } => Ok(Kind::Correspondent { room }),
        Named::Mobile { agent, .. } => Ok(Kind::Mobile { agent }),
        Named::Agent {
            preference,
            life,
            room,
            ..
        } => Ok(Kind::Agent {
            preference,
            life,
            room,
            serves: Vec::from_slice(setting.alloc, setting.config.serves.as_slice())?,
        }),
    }
}

/// The role of the configured node, with nothing behind it.
#[tactic(auto, using(crate::proofs::Configured::fits))]
fn new_role(setting: &Setting<'_>) -> Result<Role, Memory>
    ensures role { IfOk result (λ r. r ≡ new_role_of (said setting.now)) }
    ensures timely { IfOk result (λ r. IsBy r 0) }
{
    let config = setting.config;
    let kind = kind_of(setting)?;
    let own = address_of(&config.role);
    let numbers = BindingNumbers { count: 1 };
    Role::new(
        setting.alloc,
        &config.seed,
        config.node,
        0,
        own,
        &kind,
        numbers,
    )
}

/// The role is asked something, where nobody else holds an address.
#[tactic(auto, unfolding(crate::specs::Roles::answers_at, crate::specs::Roles::role_after, crate::specs::Roles::IsBy))]
pub fn act(
    role: &mut Role,
    setting: &Setting<'_>,
    now: TurnMoment,
    call: Call<'_>,
) -> Result<Answers, Memory>
    requires later { IsBy role.old now.moment.0 }
    requires askable { IsAskable call }
    ensures answers { IfOk result (λ a. a ≡ answers_at role.old now.moment.0 (asked call.entry)) }
    ensures after { OnOk result (role.new ≡ role_after role.old now.moment.0 (asked call.entry)) }
    ensures timely { IsBy role.new now.moment.0 }
{
    let mut place = setting.place();
    role.act(setting.alloc, &mut place, now.moment, call)
}

/// Whether it has work due.
#[tactic(auto, unfolding(crate::specs::Roles::has_due))]
pub fn has_due(role: &Role, now: Moment) -> bool
    ensures { result ≡ has_due role.now now.0 }
{
    match role.due() {
        Some(due) => due.0 <= now.0,
        None => false,
    }
}

/// A mobile leaves its link before the first turn, and what that leaves is told to nobody.
#[tactic(auto, unfolding(crate::specs::Roles::detached))]
fn detach(role: &mut Role, setting: &Setting<'_>) -> Result<(), Memory>
    requires { IsBy role.old 0 }
    ensures ok { OnOk result (role.new ≡ detached role.old) }
    ensures timely { IsBy role.new 0 }
{
    if role.is_roaming() {
        let first = TurnMoment { moment: Moment(0) };
        act(role, setting, first, Call::Leave)?;
    }
    Ok(())
}

/// The role of the configured node, before its first turn.
#[tactic(auto, unfolding(crate::specs::Roles::first_role))]
pub fn first_role(setting: &Setting<'_>) -> Result<Role, Memory>
    ensures role { IfOk result (λ r. r ≡ first_role (said setting.now)) }
    ensures timely { IfOk result (λ r. IsBy r 0) }
{
    let mut role = new_role(setting)?;
    detach(&mut role, setting)?;
    Ok(role)
}
