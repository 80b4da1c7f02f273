ghost use Rattle.std.specs.Prelude.{◌≡◌, ◌≤◌, [], IfOk, OnOk, IfSome, IsTrue, is_some};
ghost use Rattle.mip_words.specs.Addresses.{is_routable};
ghost use Rattle.mip_bulist.specs.Timers.{first_due};
ghost use Rattle.mip_rules_correspondent.specs.Questions.{held_of};
ghost use Rattle.mip_rules_mobile.specs.Calls as calls;
ghost use Rattle.mip_rules_mobile.specs.Known.{Known};
ghost use Rattle.mip_rules_mobile.specs.Steps as steps;
ghost use Rattle.mip_rules_mobile.specs.Steps.{answers_of};
ghost use Rattle.mip_rules_mobile.specs.Transitions.{begun, noted};
ghost use Rattle.mip_afresh_mobile_state.specs.Mobiles.{seen_of};
ghost use Rattle.mip_afresh_mobile_state.specs.Turns.{Shows};
ghost use Rattle.mip_afresh_mobile.specs.Nodes.{known_to, transition_at, after_call, AreAccepted};

use crate::arrival::Arrival;
use crate::asking::ask_refresh;
use crate::called::{Asked, Called};
use crate::past::Past;
use crate::receiving::take;
use crate::sending::{solicit, transmit};
use mip_afresh_bindings::Acceptance;
use mip_afresh_mobile_rules::{attach, begin_anew, leave, tick};
use mip_afresh_mobile_state::{Mobile, Turn};
use mip_afresh_rules::{Payload, Routable};
use mip_entries::Answers;
use mip_nonce::Secrets;
use mip_outside::Claim;
use mip_rules_mobile::Attachment;
use mip_words::{Address, Bytes, Memory, Moment, Prefix, Shield};
use std::alloc::Global;
use std::marker::Model;

/// A mobile (RFC 6275 section 11).
///
/// After a call that found no memory nothing is known of it any more: it answers as one that left its link, and each further call as if
/// memory had run out.
#[derive(Drop)]
pub struct Node {
    past: Past,
    mobile: Option<Mobile>,
}

impl Model for Node {
    ghost use Rattle.std.specs.Prelude.{◌≡◌, IfSome};
    ghost use Rattle.mip_afresh_mobile_state.specs.Mobiles.{seen_of};
    ghost use Rattle.mip_afresh_mobile.specs.Nodes.{NodeSeen, known_to};
    ghost use Rattle.mip_afresh_mobile.specs.Pasts.{node_left};

    ghost Value = { NodeSeen };

    ghost view = { λ m. node_left m.mobile m.past };

    ghost invariant = { λ m. IfSome m.mobile (λ known. seen_of (known_to m.past) ≡ known) };
}

/// A call begins, where something is known of the mobile.
fn begin(alloc: Global, now: Moment, mobile: Option<Mobile>) -> Result<Turn, Memory>
    ensures known { OnOk result (IsTrue (is_some mobile)) }
    ensures begins { (k : Known) (call : calls.Call) → IfSome mobile (λ known. seen_of k ≡ known) → IfOk result (λ turn. Shows turn (noted (steps.Called call) (begun now.0 k))) }
{
    let Some(mobile) = mobile else {
        return Err(Memory);
    };
    let answers = Answers::new(alloc)?;
    let mut turn = Turn {
        now,
        mobile,
        answers,
    };
    turn.call()?;
    Ok(turn)
}

impl Node {
    /// A mobile to which nothing has happened. Its home address is routable, and its bindings may have one number at least.
    pub fn new(
        alloc: Global,
        home: Address,
        declared: Option<Address>,
        numbers: u8,
        secrets: Secrets,
    ) -> Result<Node, Memory>
        requires routable { IsTrue (is_routable home.0) }
        requires some { 1 ≤ numbers }
        ensures { IfOk result (λ m. m ≡ record { home = home; declared = declared; numbers = numbers; secrets = secrets; past = [] }) }
    {
        let past = Past::new(home, declared, numbers, &secrets);
        let mobile = Mobile::new(alloc, home, declared, numbers, secrets)?;
        Ok(Node {
            past,
            mobile: Some(mobile),
        })
    }

    /// A packet is handed to it, under a number and a shield. Its correspondent part accepted these updates in its present life.
    pub fn take(
        &mut self,
        alloc: Global,
        now: Moment,
        number: u64,
        shield: Option<Shield>,
        packet: &[u8],
        accepted: &[Acceptance],
    ) -> Result<Answers, Memory>
        requires accepted { AreAccepted self.old.numbers now.0 accepted.now (known_to self.old).part.known.cache }
        ensures answers { IfOk result (λ a. a ≡ answers_of (transition_at self.old now.0 (calls.Take number shield packet.now)).steps) }
        ensures goes_on { OnOk result (self.new ≡ after_call self.old now.0 (calls.Take number shield packet.now)) }
    {
        let copy = Bytes::copy(alloc, packet)?;
        let mut turn = begin(alloc, now, self.mobile.take())?;
        let arrival = Arrival {
            number,
            shield,
            numbers: self.past.numbers(),
            accepted,
        };
        take(alloc, &mut turn, &arrival, packet)?;
        let at = now;
        let asked = Asked::Take {
            number,
            shield,
            packet: copy,
        };
        self.past.add(&Called { at, asked });
        let Turn {
            mobile,
            answers,
            ..
        } = turn;
        self.mobile = Some(mobile);
        Ok(answers)
    }

    /// It is to send data. Its correspondent part holds this care-of address for the destination.
    pub fn send(
        &mut self,
        alloc: Global,
        now: Moment,
        to: Routable,
        payload: &Payload<'_>,
        held: Option<Address>,
    ) -> Result<Answers, Memory>
        requires held { held ≡ held_of (known_to self.old).part.known now.0 to.address }
        ensures answers { IfOk result (λ a. a ≡ answers_of (transition_at self.old now.0 (calls.Send to.address payload.now.proto payload.now.bytes.now)).steps) }
        ensures goes_on { OnOk result (self.new ≡ after_call self.old now.0 (calls.Send to.address payload.now.proto payload.now.bytes.now)) }
    {
        let copy = Bytes::copy(alloc, payload.bytes)?;
        let mut turn = begin(alloc, now, self.mobile.take())?;
        transmit(alloc, &mut turn, to, payload, held)?;
        let at = now;
        let asked = Asked::Send {
            to: to.address,
            proto: payload.proto,
            payload: copy,
        };
        self.past.add(&Called { at, asked });
        let Turn {
            mobile,
            answers,
            ..
        } = turn;
        self.mobile = Some(mobile);
        Ok(answers)
    }

    /// It is to ask for a binding of this home to be refreshed, for which its correspondent part holds this care-of address.
    pub fn refresh(
        &mut self,
        alloc: Global,
        now: Moment,
        home: Routable,
        held: Option<Address>,
    ) -> Result<Answers, Memory>
        requires held { held ≡ held_of (known_to self.old).part.known now.0 home.address }
        ensures answers { IfOk result (λ a. a ≡ answers_of (transition_at self.old now.0 (calls.Refresh home.address)).steps) }
        ensures goes_on { OnOk result (self.new ≡ after_call self.old now.0 (calls.Refresh home.address)) }
    {
        let mut turn = begin(alloc, now, self.mobile.take())?;
        ask_refresh(alloc, &mut turn, home, held)?;
        let at = now;
        let asked = Asked::Refresh { home: home.address };
        self.past.add(&Called { at, asked });
        let Turn {
            mobile,
            answers,
            ..
        } = turn;
        self.mobile = Some(mobile);
        Ok(answers)
    }

    /// Time goes on, and due work is done.
    pub fn tick(&mut self, alloc: Global, now: Moment) -> Result<Answers, Memory>
        ensures answers { IfOk result (λ a. a ≡ answers_of (transition_at self.old now.0 calls.Tick).steps) }
        ensures goes_on { OnOk result (self.new ≡ after_call self.old now.0 calls.Tick) }
    {
        let mut turn = begin(alloc, now, self.mobile.take())?;
        tick(alloc, &mut turn)?;
        let at = now;
        let asked = Asked::Tick;
        self.past.add(&Called { at, asked });
        let Turn {
            mobile,
            answers,
            ..
        } = turn;
        self.mobile = Some(mobile);
        Ok(answers)
    }

    /// A router advertises a prefix. Its place answers so to claims of its home address, and of its address under the prefix.
    pub fn attach(
        &mut self,
        alloc: Global,
        now: Moment,
        prefix: Prefix,
        of_home: Claim,
        of_address: Claim,
    ) -> Result<Answers, Memory>
        ensures answers { IfOk result (λ a. a ≡ answers_of (transition_at self.old now.0 (calls.Attach prefix.0 of_home of_address)).steps) }
        ensures goes_on { OnOk result (self.new ≡ after_call self.old now.0 (calls.Attach prefix.0 of_home of_address)) }
    {
        let mut turn = begin(alloc, now, self.mobile.take())?;
        attach(alloc, &mut turn, prefix, of_home, of_address)?;
        let at = now;
        let asked = Asked::Attach {
            prefix,
            of_home,
            of_address,
        };
        self.past.add(&Called { at, asked });
        let Turn {
            mobile,
            answers,
            ..
        } = turn;
        self.mobile = Some(mobile);
        Ok(answers)
    }

    /// It leaves its link. Its place answers so to a claim of its home address.
    pub fn leave(&mut self, alloc: Global, now: Moment, of_home: Claim) -> Result<Answers, Memory>
        ensures answers { IfOk result (λ a. a ≡ answers_of (transition_at self.old now.0 (calls.Leave of_home)).steps) }
        ensures goes_on { OnOk result (self.new ≡ after_call self.old now.0 (calls.Leave of_home)) }
    {
        let mut turn = begin(alloc, now, self.mobile.take())?;
        leave(alloc, &mut turn, of_home)?;
        let at = now;
        let asked = Asked::Leave { of_home };
        self.past.add(&Called { at, asked });
        let Turn {
            mobile,
            answers,
            ..
        } = turn;
        self.mobile = Some(mobile);
        Ok(answers)
    }

    /// It is to solicit the prefixes of its home link.
    pub fn ask(&mut self, alloc: Global, now: Moment) -> Result<Answers, Memory>
        ensures answers { IfOk result (λ a. a ≡ answers_of (transition_at self.old now.0 calls.Ask).steps) }
        ensures goes_on { OnOk result (self.new ≡ after_call self.old now.0 calls.Ask) }
    {
        let mut turn = begin(alloc, now, self.mobile.take())?;
        solicit(alloc, &mut turn)?;
        let at = now;
        let asked = Asked::Ask;
        self.past.add(&Called { at, asked });
        let Turn {
            mobile,
            answers,
            ..
        } = turn;
        self.mobile = Some(mobile);
        Ok(answers)
    }

    /// It loses all that it keeps, and goes on with these secrets.
    pub fn restart(
        &mut self,
        alloc: Global,
        now: Moment,
        secrets: Secrets,
    ) -> Result<Answers, Memory>
        ensures answers { IfOk result (λ a. a ≡ answers_of (transition_at self.old now.0 (calls.Restart secrets)).steps) }
        ensures goes_on { OnOk result (self.new ≡ after_call self.old now.0 (calls.Restart secrets)) }
    {
        let mut turn = begin(alloc, now, self.mobile.take())?;
        let call = Called {
            at: now,
            asked: Asked::Restart { secrets },
        };
        self.past.add(&call);
        let Called { asked, .. } = call;
        match asked {
            Asked::Restart { secrets } => begin_anew(alloc, &mut turn, secrets)?,
            _other => return Err(Memory),
        }
        let Turn {
            mobile,
            answers,
            ..
        } = turn;
        self.mobile = Some(mobile);
        Ok(answers)
    }

    /// The home address.
    pub fn home(&self) -> Address
        ensures { result ≡ self.now.home }
    {
        self.past.home()
    }

    /// What it knows, but for the bindings of its correspondent part; none after a call that found no memory.
    pub fn mobile(&self) -> Option<&Mobile>
        ensures { IfSome result (λ m. seen_of (known_to self.now) ≡ m.now) }
    {
        match &self.mobile {
            Some(mobile) => Some(mobile),
            None => None,
        }
    }

    /// When work is due next.
    pub fn due(&self) -> Option<Moment>
        ensures { result ≡ first_due (known_to self.now).list.timers }
    {
        match &self.mobile {
            Some(mobile) => mobile.first_due(),
            None => None,
        }
    }

    /// Where it stands.
    pub fn standing(&self) -> Attachment
        ensures { result ≡ (known_to self.now).standing }
    {
        match &self.mobile {
            Some(mobile) => mobile.standing(),
            None => Attachment::Detached,
        }
    }
}
