ghost use Rattle.std.specs.Prelude.{◌≡◌, ◌≤◌, [], true, None, IfOk, IfSome, IsTrue, IsFalse, length, option_copied, slice_get};
ghost use Rattle.std.specs.Option.{option_map};
ghost use Rattle.std.specs.Borrow.{Lends, sem};
ghost use Rattle.mip_words.specs.Addresses.{is_routable};
ghost use Rattle.mip_ipv6.specs.Packet.{names_no_body};
ghost use Rattle.mip_bcache.specs.Seen.{rows_at};
ghost use Rattle.mip_bulist.specs.Timers.{first_due};
ghost use Rattle.mip_rules_correspondent.specs.Rules.{is_data};
ghost use Rattle.mip_rules_mobile.specs.Calls as calls;
ghost use Rattle.mip_rules_mobile.specs.HomeQuestions.{home_of};
ghost use Rattle.mip_rules_mobile.specs.Questions.{fresh};
ghost use Rattle.mip_rules_mobile.specs.MovingRules.{address_under};
ghost use Rattle.mip_mobile.specs.Performing.{Performs};
ghost use Rattle.mip_mobile.specs.Placing.{attach_at, leave_at, claims_attached, claims_after_leaving};
ghost use Rattle.mip_mobile.specs.Claiming.{AreLeftAsTold};
ghost use Rattle.mip_mobile.specs.Stations.{machine_of, IsTyped, with_clock_in, with_wire_in};
ghost use Rattle.mip_mobile.specs.contracts.mobile.Mobile.{the_row};

use crate::machine::Machine;
use crate::state::{AtHome, Away, Detached};
use crate::station::Station;
use mip_bcache::Row;
use mip_entries::Answers;
use mip_mobile_calls::Data;
use mip_nonce::Secrets;
use mip_outside::{Clock, Place, Wire};
use mip_rules_mobile::Attachment;
use mip_transmission::StationFault;
use mip_words::{Address, Memory, Moment, Prefix, Shield};
use std::alloc::Global;

/// A mobile node over its clock and its wire, wherever it stands (RFC 6275 section 11).
#[must_use]
#[derive(Drop)]
pub enum Mobile<C: Clock, W: Wire> {
    Detached(Station<Detached, C, W>),
    AtHome(Station<AtHome, C, W>),
    Away(Station<Away, C, W>),
}

/// What a call leaves: the mobile, and its answers. A call reads the clock once, unless there was a fault before. After a fault
/// the mobile answers that fault from then on, and puts nothing on its wire.
pub type Outcome<C, W> = (Mobile<C, W>, Result<Answers, StationFault>);

impl<C: Clock + Drop, W: Wire + Drop> Mobile<C, W> {
    /// A new mobile, at home: its home address, the agent that it is declared with, the secrets of its first life, and how many
    /// numbers a home's bindings may have.
    pub fn new(
        alloc: Global,
        home: Address,
        declared: Option<Address>,
        secrets: Secrets,
        clock: C,
        wire: W,
        numbers: u8,
    ) -> Result<Mobile<C, W>, Memory>
        requires home { IsTrue (is_routable home.0) }
        requires some { 1 ≤ numbers }
        requires few { numbers ≤ 8 }
        ensures known { IfOk result (λ m. (machine_of m).context ≡ record { moment = 0; known = fresh home declared numbers secrets; answers = [] }) }
        ensures parts { IfOk result (λ m. ((machine_of m).clock ≡ clock) × ((machine_of m).wire ≡ wire) × ((machine_of m).fault ≡ None)) }
        ensures typed { IfOk result (λ m. IsTyped m) }
    {
        let machine = Machine::new(alloc, home, declared, secrets, clock, wire, numbers)?;
        Ok(Mobile::of(machine))
    }

    /// The type says where it stands.
    pub(crate) fn of(machine: Machine<C, W>) -> Mobile<C, W>
        ensures machine { machine_of result ≡ machine }
        ensures typed { IsTyped result }
    {
        match machine.standing() {
            Attachment::Detached => Mobile::Detached(Station {
                machine,
                state: Detached,
            }),
            Attachment::AtHome => Mobile::AtHome(Station {
                machine,
                state: AtHome,
            }),
            Attachment::Away { careof } => Mobile::Away(Station {
                machine,
                state: Away { careof },
            }),
        }
    }

    fn into_machine(self) -> Machine<C, W>
        ensures { result ≡ machine_of self }
    {
        match self {
            Mobile::Detached(station) => station.machine,
            Mobile::AtHome(station) => station.machine,
            Mobile::Away(station) => station.machine,
        }
    }

    /// The mobile's clock. What is written there is in the mobile once the borrow ends.
    pub fn clock(&mut self) -> &mut C
        ensures* lent { sem 𝓛 (Lends (the_row C.row W.row) C.row self.entry result (with_clock_in self.entry.now)) }
        ensures clock { result.now ≡ (machine_of self.old).clock }
    {
        match self {
            Mobile::Detached(station) => station.machine.clock(),
            Mobile::AtHome(station) => station.machine.clock(),
            Mobile::Away(station) => station.machine.clock(),
        }
    }

    /// The mobile's wire. What is written there is in the mobile once the borrow ends.
    pub fn wire(&mut self) -> &mut W
        ensures* lent { sem 𝓛 (Lends (the_row C.row W.row) W.row self.entry result (with_wire_in self.entry.now)) }
        ensures wire { result.now ≡ (machine_of self.old).wire }
    {
        match self {
            Mobile::Detached(station) => station.machine.wire(),
            Mobile::AtHome(station) => station.machine.wire(),
            Mobile::Away(station) => station.machine.wire(),
        }
    }

    /// The row at a place among those that its correspondent part keeps, in order of home address, then of number.
    pub fn row(&self, now: Moment, place: u32) -> Option<&Row>
        requires { (machine_of self.now).context.moment ≤ now.0 }
        ensures { option_copied result ≡ slice_get (rows_at (machine_of self.now).context.known.part.known.cache now.0) place }
    {
        match self {
            Mobile::Detached(station) => station.machine.row(now, place),
            Mobile::AtHome(station) => station.machine.row(now, place),
            Mobile::Away(station) => station.machine.row(now, place),
        }
    }

    /// The earliest moment at which work is due.
    pub fn due(&self) -> Option<Moment>
        ensures { result ≡ first_due (machine_of self.now).context.known.list.timers }
    {
        match self {
            Mobile::Detached(station) => station.machine.due(),
            Mobile::AtHome(station) => station.machine.due(),
            Mobile::Away(station) => station.machine.due(),
        }
    }

    /// A router advertises a prefix (RFC 6275 section 11.5.1).
    pub fn attach<P: Place>(self, alloc: Global, place: &mut P, prefix: Prefix) -> Outcome<C, W>
        requires home { (P.around place.old).room (home_of (machine_of self).context.known).0 ≡ true }
        requires address { (P.around place.old).room (address_under (home_of (machine_of self).context.known) prefix.0).0 ≡ true }
        ensures performs { Performs C.Clock W.Wire (machine_of self) (machine_of result.0)
            (attach_at (P.around place.old) (home_of (machine_of self).context.known) prefix.0) result.1 }
        ensures faulted { IfSome (machine_of self).fault (λ fault. P.claims place.new ≡ P.claims place.old) }
        ensures typed { IsTyped result.0 }
        ensures claims { (machine_of self).fault ≡ None → P.claims place.new
            ≡ option_map (claims_attached (P.around place.old) (machine_of self).context.known prefix.0) (P.claims place.old) }
        ensures told { IfOk result.1 (λ answers. AreLeftAsTold (P.claims place.old) answers (P.claims place.new)) }
        ensures place { (P.around place.new ≡ P.around place.old) × P.is_same place.old place.new }
    {
        let mut machine = self.into_machine();
        let answers = machine.attach(alloc, place, prefix);
        (Mobile::of(machine), answers)
    }

    /// The mobile leaves its link.
    pub fn leave<P: Place>(self, alloc: Global, place: &mut P) -> Outcome<C, W>
        requires home { (P.around place.old).room (home_of (machine_of self).context.known).0 ≡ true }
        ensures performs { Performs C.Clock W.Wire (machine_of self) (machine_of result.0)
            (leave_at (P.around place.old) (home_of (machine_of self).context.known)) result.1 }
        ensures faulted { IfSome (machine_of self).fault (λ fault. P.claims place.new ≡ P.claims place.old) }
        ensures typed { IsTyped result.0 }
        ensures claims { (machine_of self).fault ≡ None → P.claims place.new
            ≡ option_map (claims_after_leaving (P.around place.old) (machine_of self).context.known) (P.claims place.old) }
        ensures told { IfOk result.1 (λ answers. AreLeftAsTold (P.claims place.old) answers (P.claims place.new)) }
        ensures place { (P.around place.new ≡ P.around place.old) × P.is_same place.old place.new }
    {
        let mut machine = self.into_machine();
        let answers = machine.leave(alloc, place);
        (Mobile::of(machine), answers)
    }

    /// Takes a packet that was handed to it, by its number and shield.
    pub fn take(
        self,
        alloc: Global,
        number: u64,
        shield: Option<Shield>,
        packet: &[u8],
    ) -> Outcome<C, W>
        ensures performs { Performs C.Clock W.Wire (machine_of self) (machine_of result.0) (calls.Take number shield packet.now) result.1 }
        ensures typed { IsTyped result.0 }
    {
        let mut machine = self.into_machine();
        let answers = machine.take(alloc, number, shield, packet);
        (Mobile::of(machine), answers)
    }

    /// Time goes on, and due work is done.
    pub fn tick(self, alloc: Global) -> Outcome<C, W>
        ensures performs { Performs C.Clock W.Wire (machine_of self) (machine_of result.0) calls.Tick result.1 }
        ensures typed { IsTyped result.0 }
    {
        let mut machine = self.into_machine();
        let answers = machine.tick(alloc);
        (Mobile::of(machine), answers)
    }

    /// Sends data of a protocol that is neither a tunnel, nor ICMPv6, nor nothing, nor a mobility message, nor a header of its own;
    /// 512 bytes at most.
    pub fn send(self, alloc: Global, to: Address, proto: u8, payload: &[u8]) -> Outcome<C, W>
        requires data { IsTrue (is_data proto) }
        requires proto { IsFalse (names_no_body proto) }
        requires short { length payload.now ≤ 512 }
        ensures performs { Performs C.Clock W.Wire (machine_of self) (machine_of result.0) (calls.Send to proto payload.now) result.1 }
        ensures typed { IsTyped result.0 }
    {
        let mut machine = self.into_machine();
        let answers = machine.send(alloc, to, &Data { proto, payload });
        (Mobile::of(machine), answers)
    }

    /// Asks the care-of address that is held for a home for a Binding Update; `idle` where none is held.
    pub fn refresh(self, alloc: Global, home: Address) -> Outcome<C, W>
        ensures performs { Performs C.Clock W.Wire (machine_of self) (machine_of result.0) (calls.Refresh home) result.1 }
        ensures typed { IsTyped result.0 }
    {
        let mut machine = self.into_machine();
        let answers = machine.refresh(alloc, home);
        (Mobile::of(machine), answers)
    }

    /// Solicits the prefixes of its home link (RFC 6275 section 11.4.2).
    pub fn ask(self, alloc: Global) -> Outcome<C, W>
        ensures performs { Performs C.Clock W.Wire (machine_of self) (machine_of result.0) calls.Ask result.1 }
        ensures typed { IsTyped result.0 }
    {
        let mut machine = self.into_machine();
        let answers = machine.ask(alloc);
        (Mobile::of(machine), answers)
    }

    /// Loses all that it keeps, and goes on with these secrets.
    pub fn restart(self, alloc: Global, secrets: Secrets) -> Outcome<C, W>
        ensures performs { Performs C.Clock W.Wire (machine_of self) (machine_of result.0) (calls.Restart secrets) result.1 }
        ensures typed { IsTyped result.0 }
    {
        let mut machine = self.into_machine();
        let answers = machine.restart(alloc, secrets);
        (Mobile::of(machine), answers)
    }
}
