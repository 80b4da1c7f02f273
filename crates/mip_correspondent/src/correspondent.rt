ghost use Rattle.std.specs.Prelude.{◌≡◌, ◌*◌, ℕ, ◌<◌, ◌≤◌, ◌^◌, List, true, IfOk, OnOk, OnErr, IfSome, IsTrue, length, option_copied, option_map, slice_get};
ghost use Rattle.std.specs.List.{list_any};
ghost use Rattle.mip_words.specs.Addresses.{is_routable};
ghost use Rattle.mip_ipv6.specs.Packet.{packet as tree};
ghost use Rattle.mip_nonce.specs.Secrets.{cookie_of};
ghost use Rattle.mip_packets.specs.Says.{message_in};
ghost use Rattle.mip_binding.specs.Acceptance.{Acceptance};
ghost use Rattle.mip_binding.specs.Homes.{shown_rows};
ghost use Rattle.mip_binding.specs.Held.{held, holds};
ghost use Rattle.mip_bcache.specs.Seen.{StandsFor, rows_at, seen_row};
ghost use Rattle.mip_entries.specs.Stamped.{Stamped};
ghost use Rattle.mip_reception.specs.Refusing.{refuses};
ghost use Rattle.mip_rules_correspondent.specs.Steps.{Step, answers_of};
ghost use Rattle.mip_rules_correspondent.specs.Questions.{fresh, held_of, holds_for};
ghost use Rattle.mip_rules_correspondent.specs.Transitions.{Stands, with_transition};
ghost use Rattle.mip_rules_correspondent.specs.Calls as calls;
ghost use Rattle.mip_rules_correspondent.specs.Seen.{transition_at, called};
ghost use Rattle.mip_correspondent.specs.Requirements.{IsTimely, IsOfPart, IsSendable};
ghost use Rattle.mip_correspondent.specs.Showing.{left, with_kept, Fits};

use crate::accepted_binding::AcceptedBinding;
use crate::packet_context::PacketContext;
use crate::part::{answer_message, init_in};
use crate::receiving::receive;
use crate::sending::{ask_refresh, send_data};
use mip_bcache::{AcceptFault, Cache, Row};
use mip_entries::Answers;
use mip_ipv6::PacketRef;
use mip_nonce::Secrets;
use mip_packets::{TestKind, init_ahead, message_in};
use mip_rules_correspondent::{Identity, Known};
use mip_words::{Address, Cookie, Memory, Moment, Shield};
use std::alloc::Global;
use std::marker::Model;

/// A correspondent node (RFC 6275 section 9). Moments that it is given do not fall.
#[derive(Drop)]
pub struct Correspondent {
    identity: Identity,
    known: Known,
}

impl Model for Correspondent {
    ghost use Rattle.mip_rules_correspondent.specs.Seen.{CorrespondentSeen};
    ghost use Rattle.mip_correspondent.specs.Soundness.{IsSound};

    ghost Value = { CorrespondentSeen };

    ghost view = { λ c. record { identity = c.identity; known = c.known } };

    ghost invariant = { λ c. IsSound (record { identity = c.identity; known = c.known }) };
}

impl Correspondent {
    /// A correspondent with this address, the secrets of its present life, and room for so many homes and for so many
    /// bindings of each.
    pub fn new(
        alloc: Global,
        own: Address,
        secrets: Secrets,
        room: u32,
        numbers: u8,
    ) -> Result<Correspondent, Memory>
        requires some { 1 ≤ numbers }
        requires few { numbers ≤ 8 }
        requires room { room * numbers < 2 ^ 32 }
        ensures { IfOk result (λ c. c ≡ record { identity = record { own = own; secrets = secrets; room = room }; known = fresh room numbers }) }
    {
        let cache = Cache::with_limit(alloc, room, numbers)?;
        let identity = Identity { own, secrets, room };
        let known = Known {
            last: Moment(0),
            cache,
        };
        Ok(Correspondent { identity, known })
    }

    /// The cookie that its present life draws after so many others.
    pub fn cookie(&self, number: u64) -> Cookie
        ensures { result.0 ≡ cookie_of self.now.identity.secrets number }
    {
        self.identity.secrets.cookie(number)
    }

    /// Draws the cookie of this number with those beside it. Nothing that a contract sees changes.
    pub fn draw_cookies(&mut self, number: u64)
        ensures { self.new ≡ self.old }
    {
        self.identity.secrets.draw_cookies(number);
    }

    /// How many numbers the bindings of a home may have.
    pub fn numbers(&self) -> u8
        ensures value { result ≡ self.now.known.cache.numbers }
        ensures some { 1 ≤ result }
        ensures few { result ≤ 8 }
    {
        self.known.cache.numbers()
    }

    /// The care-of address that is held for a home.
    #[tactic(auto, using(crate::proofs::Rows::held_routable))]
    pub fn route(&self, now: Moment, peer: Address) -> Option<Address>
        requires { self.now.known.last.0 ≤ now.0 }
        ensures found { result ≡ held_of self.now.known now.0 peer }
        ensures answers { (past : List Acceptance) → StandsFor self.now.known.cache past → option_map (λ a. a.0) result ≡ held past peer.0 now.0 }
        ensures routable { IfSome result (λ _. IsTrue (is_routable peer.0)) }
    {
        match self.known.cache.look(now, peer) {
            Some(row) => Some(row.careof),
            None => None,
        }
    }

    /// Whether this care-of address is held for a home, under some number.
    pub fn holds(&self, now: Moment, home: Address, careof: Address) -> bool
        requires { self.now.known.last.0 ≤ now.0 }
        ensures found { result ≡ holds_for self.now.known now.0 home careof }
        ensures answers { (past : List Acceptance) → StandsFor self.now.known.cache past → result ≡ holds past home.0 now.0 careof.0 }
    {
        self.known.cache.holds(now, home, careof)
    }

    /// The row at a place among those that are kept, in order of home address, then of number.
    pub fn row(&self, now: Moment, place: u32) -> Option<&Row>
        requires { self.now.known.last.0 ≤ now.0 }
        ensures found { option_copied result ≡ slice_get (rows_at self.now.known.cache now.0) place }
        ensures answers { (past : List Acceptance) → StandsFor self.now.known.cache past
            → option_map seen_row (option_copied result) ≡ slice_get (shown_rows past now.0) place }
        ensures few { length (rows_at self.now.known.cache now.0) < 2 ^ 32 }
    {
        self.known.cache.row(now, place)
    }

    /// A call at this moment ends, and an update that was accepted has its row.
    #[tactic(auto, using(crate::proofs::Rows::kept_sound))]
    fn commit_call(&mut self, now: Moment, kept: Option<AcceptedBinding>)
        requires timely { IsTimely self.old.known.last.0 now.0 }
        requires fits { Fits now.0 self.old.known.cache kept }
        ensures { self.new ≡ record { identity = self.old.identity; known = left now.0 (with_kept now.0 kept self.old.known.cache) } }
    {
        keep(&mut self.known.cache, now, kept);
        self.known.last = now;
    }

    /// Makes ready the token that is asked for, at the address that asks, and keeps it for the update that follows. Nothing
    /// that a contract sees changes.
    fn keep_token(&mut self, now: Moment, asked: Option<(TestKind, Address)>)
        ensures { self.new ≡ self.old }
    {
        let secrets = &mut self.identity.secrets;
        match asked {
            Some((TestKind::Home, address)) => secrets.keep_home_token(now, address),
            Some((TestKind::Careof, address)) => secrets.keep_careof_token(now, address),
            None => (),
        }
    }

    /// Takes a packet that was handed to the node, by its number and shield, and gives what the node
    /// does about it, in order. After want of memory the node is as it was. A packet that it drops, and an update that it
    /// denies, change no binding.
    pub fn take(
        &mut self,
        alloc: Global,
        now: Moment,
        number: u64,
        shield: Option<Shield>,
        packet: &[u8],
    ) -> Result<Answers, Memory>
        requires timely { IsTimely self.old.known.last.0 now.0 }
        ensures answers { IfOk result (λ a. a ≡ answers_of (transition_at self.old now.0 (calls.Take number shield packet.now)).steps) }
        ensures after { OnOk result (self.new ≡ called self.old now.0 (calls.Take number shield packet.now)) }
        ensures stands { (room numbers : ℕ) (past : List (Stamped Step)) → Stands room numbers past self.old.known →
            OnOk result (Stands room numbers (with_transition past (transition_at self.old now.0 (calls.Take number shield packet.now))) self.new.known) }
        ensures last { OnOk result (self.new.known.last ≡ now) }
        ensures refused { IfOk result (λ a. list_any refuses a ≡ true → self.new.known.cache ≡ self.old.known.cache) }
        ensures err { OnErr result (self.new ≡ self.old) }
    {
        let mut answers = Answers::new(alloc)?;
        self.keep_token(now, init_ahead(packet));
        let context = PacketContext {
            identity: &self.identity,
            cache: &self.known.cache,
            moment: now,
            number,
        };
        let kept = receive(alloc, &mut answers, &context, packet)?;
        self.commit_call(now, kept);
        Ok(answers)
    }

    /// Does the correspondent part of a node about a packet that has passed the node's checks: a test init, a
    /// Binding Update, or data. After want of memory it is as it was. An update that it drops or denies changes no binding.
    pub fn part(
        &mut self,
        alloc: Global,
        now: Moment,
        number: u64,
        packet: &PacketRef<'_>,
    ) -> Result<Answers, Memory>
        requires timely { IsTimely self.old.known.last.0 now.0 }
        requires packet { IsOfPart packet.now }
        ensures answers { IfOk result (λ a. a ≡ answers_of (transition_at self.old now.0 (calls.Part number (tree packet.now))).steps) }
        ensures after { OnOk result (self.new ≡ called self.old now.0 (calls.Part number (tree packet.now))) }
        ensures stands { (room numbers : ℕ) (past : List (Stamped Step)) → Stands room numbers past self.old.known →
            OnOk result (Stands room numbers (with_transition past (transition_at self.old now.0 (calls.Part number (tree packet.now)))) self.new.known) }
        ensures last { OnOk result (self.new.known.last ≡ now) }
        ensures refused { IfOk result (λ a. list_any refuses a ≡ true → self.new.known.cache ≡ self.old.known.cache) }
        ensures err { OnErr result (self.new ≡ self.old) }
    {
        let mut answers = Answers::new(alloc)?;
        let message = message_in(packet);
        self.keep_token(now, init_in(packet.head.source, &message));
        let context = PacketContext {
            identity: &self.identity,
            cache: &self.known.cache,
            moment: now,
            number,
        };
        let kept = answer_message(alloc, &mut answers, &context, packet, &message)?;
        self.commit_call(now, kept);
        Ok(answers)
    }

    /// Time goes on, and rows past their time are given up.
    pub fn tick(&mut self, now: Moment)
        requires { self.old.known.last.0 ≤ now.0 }
        ensures after { self.new ≡ called self.old now.0 calls.Tick }
        ensures stands { (room numbers : ℕ) (past : List (Stamped Step))
            → Stands room numbers past self.old.known
            → Stands room numbers (with_transition past (transition_at self.old now.0 calls.Tick)) self.new.known }
        ensures last { self.new.known.last ≡ now }
    {
        let _given_up = self.known.cache.give_up(now);
        self.known.last = now;
    }

    /// Asks the care-of address that is held for a home for a Binding Update; `idle` where none is held. After
    /// want of memory the node is as it was.
    pub fn refresh(&mut self, alloc: Global, now: Moment, home: Address) -> Result<Answers, Memory>
        requires timely { IsTimely self.old.known.last.0 now.0 }
        ensures answers { IfOk result (λ a. a ≡ answers_of (transition_at self.old now.0 (calls.Refresh home)).steps) }
        ensures after { OnOk result (self.new ≡ called self.old now.0 (calls.Refresh home)) }
        ensures stands { (room numbers : ℕ) (past : List (Stamped Step)) → Stands room numbers past self.old.known →
            OnOk result (Stands room numbers (with_transition past (transition_at self.old now.0 (calls.Refresh home))) self.new.known) }
        ensures last { OnOk result (self.new.known.last ≡ now) }
        ensures err { OnErr result (self.new ≡ self.old) }
    {
        let mut answers = Answers::new(alloc)?;
        let held = self.route(now, home);
        ask_refresh(alloc, &mut answers, &self.identity, home, held)?;
        self.commit_call(now, None);
        Ok(answers)
    }

    /// Sends data of a protocol that is neither a tunnel, nor ICMPv6, nor nothing, nor a mobility message, nor a
    /// header of its own; 512 bytes at most. After want of memory the node is as it was.
    pub fn send(
        &mut self,
        alloc: Global,
        now: Moment,
        to: Address,
        proto: u8,
        payload: &[u8],
    ) -> Result<Answers, Memory>
        requires timely { IsTimely self.old.known.last.0 now.0 }
        requires data { IsSendable proto payload.now }
        ensures answers { IfOk result (λ a. a ≡ answers_of (transition_at self.old now.0 (calls.Send to proto payload.now)).steps) }
        ensures after { OnOk result (self.new ≡ called self.old now.0 (calls.Send to proto payload.now)) }
        ensures stands { (room numbers : ℕ) (past : List (Stamped Step)) → Stands room numbers past self.old.known →
            OnOk result (Stands room numbers (with_transition past (transition_at self.old now.0 (calls.Send to proto payload.now))) self.new.known) }
        ensures last { OnOk result (self.new.known.last ≡ now) }
        ensures err { OnErr result (self.new ≡ self.old) }
    {
        let mut answers = Answers::new(alloc)?;
        let held = self.route(now, to);
        send_data(
            alloc,
            &mut answers,
            &self.identity,
            to,
            proto,
            payload,
            held,
        )?;
        self.commit_call(now, None);
        Ok(answers)
    }
}

/// An update that was accepted has its row.
fn keep(cache: &mut Cache, now: Moment, kept: Option<AcceptedBinding>)
    requires later { cache.old.last ≤ now.0 }
    requires early { now.0 < 2 ^ 62 }
    requires numbers { 0 < cache.old.numbers }
    requires fits { Fits now.0 cache.old kept }
    ensures { cache.new ≡ with_kept now.0 kept cache.old }
{
    let Some(kept) = kept else {
        return;
    };
    match cache.accept(now, kept.home, kept.number, kept.accepted) {
        Ok(()) => (),
        Err(AcceptFault::Full) => unreachable!(),
    }
}
