//! A mobile of a run.

ghost use Rattle.std.specs.Prelude.{◌≡◌, ◌≤◌, ◌==◌, ◌&&◌, true, false, IfOk, OnOk, is_some, option_copied, slice_get};
ghost use Rattle.mip_words.specs.Addresses.{is_routable};
ghost use Rattle.mip_bcache.specs.Seen.{rows_at};
ghost use Rattle.mip_bulist.specs.Timers.{first_due};
ghost use Rattle.mip_rules_mobile.specs.Doing.{transition_of};
ghost use Rattle.mip_rules_correspondent.specs.Questions.{held_of};
ghost use Rattle.mip_rules_mobile.specs.HomeQuestions.{home_of, registered_agent};
ghost use Rattle.mip_rules_mobile.specs.Questions.{fresh};
ghost use Rattle.mip_rules_mobile.specs.RowQuestions.{bound_row_of};
ghost use Rattle.mip_rules_mobile.specs.Steps.{answers_of};
ghost use Rattle.mip_history.specs.Calls.{for_mobile};
ghost use Rattle.mip_history.specs.Found.{address_of};
ghost use Rattle.mip_history.specs.Homes.{is_at_home};
ghost use Rattle.mip_roles.specs.Calls.{asked, IsAskable};
ghost use Rattle.mip_roles.specs.Places.{around_seen};
ghost use Rattle.mip_roles.specs.Roles.{or_idle, or_same};

use crate::binding_numbers::BindingNumbers;
use crate::call_at::CallAt;
use crate::mobile;
use crate::place::NetPlace;
use mip_bcache::Row;
use mip_entries::Answers;
use mip_mobile_calls::CallContext;
use mip_nonce::Secrets;
use mip_rules_mobile::Attachment;
use mip_words::{Address, Memory, Moment};
use std::alloc::Global;
use std::marker::Model;

/// A mobile (RFC 6275 section 11). Once memory was wanting in a call it knows nothing any more, and answers no call.
#[derive(Drop)]
pub struct MobileRole {
    context: CallContext,
    failed: bool,
}

impl Model for MobileRole {
    ghost use Rattle.mip_rules_mobile.specs.Known.{Known};
    ghost use Rattle.mip_roles.specs.MobileRoles.{known_unless, IsCalm};

    ghost Value = { Known };

    ghost view = { λ r. known_unless r.failed r.context.known };

    ghost invariant = { λ r. IsCalm r.failed r.context };
}

impl MobileRole {
    /// A new mobile, at home.
    pub fn new(
        alloc: Global,
        home: Address,
        agent: Option<Address>,
        secrets: Secrets,
        numbers: BindingNumbers,
    ) -> Result<MobileRole, Memory>
        requires home { is_routable home.0 ≡ true }
        ensures { IfOk result (λ r. r ≡ fresh home agent numbers.count secrets) }
    {
        let context = CallContext::open(alloc, home, agent, secrets, numbers.count)?;
        Ok(MobileRole {
            context,
            failed: false,
        })
    }

    /// The mobile is asked something; what is nothing to it leaves `idle`.
    pub fn ask(
        &mut self,
        alloc: Global,
        place: &NetPlace<'_>,
        at: CallAt<'_>,
    ) -> Result<Answers, Memory>
        requires later { self.old.last.0 ≤ at.now.0 }
        requires askable { IsAskable at.call }
        ensures answers { IfOk result (λ a. a ≡
            or_idle (λ x. answers_of (transition_of self.old at.entry.now.0 x).steps) (for_mobile (around_seen place.now) (home_of self.old) (asked at.entry.call))) }
        ensures after { OnOk result (self.new ≡
            or_same self.old (λ x. (transition_of self.old at.entry.now.0 x).known) (for_mobile (around_seen place.now) (home_of self.old) (asked at.entry.call))) }
        ensures timely { self.new.last.0 ≤ at.entry.now.0 }
    {
        if self.failed {
            return Err(Memory);
        }
        match mobile::ask(&mut self.context, alloc, place, at) {
            Ok(answers) => Ok(answers),
            Err(Memory) => {
                self.failed = true;
                Err(Memory)
            }
        }
    }

    /// The earliest moment at which work is due.
    pub fn due(&self) -> Option<Moment>
        ensures { result ≡ first_due self.now.list.timers }
    {
        if self.failed {
            None
        } else {
            self.context.due()
        }
    }

    /// The row at a place among those that its correspondent part keeps, in order of home address, then of number.
    pub fn row(&self, now: Moment, place: u32) -> Option<&Row>
        requires { self.now.last.0 ≤ now.0 }
        ensures { option_copied result ≡ slice_get (rows_at self.now.part.known.cache now.0) place }
    {
        if self.failed {
            None
        } else {
            self.context.kept_row(now, place)
        }
    }

    /// The address at which it is present, where this is its own: none while it uses none.
    pub fn present(&self, own: Address) -> Option<Address>
        ensures { result ≡ address_of own self.now.standing }
    {
        if self.failed {
            return Some(own);
        }
        match self.context.standing() {
            Attachment::Detached => None,
            Attachment::AtHome => Some(own),
            Attachment::Away { careof } => Some(careof),
        }
    }

    /// The agent with which it is registered at a moment.
    pub fn agent(&self, now: Moment) -> Option<Address>
        ensures { result ≡ registered_agent self.now now.0 }
    {
        if self.failed {
            None
        } else {
            self.context.registered_at(now)
        }
    }

    /// Whether it has a binding with a peer at a moment.
    pub fn is_bound(&self, now: Moment, peer: Address) -> bool
        ensures { result ≡ is_some (bound_row_of self.now now.0 peer) }
    {
        !self.failed && self.context.is_bound_at(now, peer)
    }

    /// The care-of address that its correspondent part holds for a home.
    pub fn held(&self, now: Moment, home: Address) -> Option<Address>
        requires { self.now.last.0 ≤ now.0 }
        ensures { result ≡ held_of self.now.part.known now.0 home }
    {
        if self.failed {
            None
        } else {
            self.context.held_at(now, home)
        }
    }

    /// Whether it is at home, and this is its home address.
    pub fn lives_at(&self, address: Address) -> bool
        ensures { result ≡ (((home_of self.now).0 == address.0) && is_at_home self.now.standing) }
    {
        self.context.home().0 == address.0 && self.is_at_home()
    }

    fn is_at_home(&self) -> bool
        ensures { result ≡ is_at_home self.now.standing }
    {
        self.failed || matches!(self.context.standing(), Attachment::AtHome)
    }
}
