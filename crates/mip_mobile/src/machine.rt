//! A mobile with its clock and its wire, wherever it stands.

ghost use Rattle.std.specs.Prelude.{◌≡◌, ◌≤◌, [], None, Some, IfOk, IfErr, OnOk, IsTrue, option_copied, option_map, slice_get};
ghost use Rattle.mip_words.specs.Addresses.{is_routable};
ghost use Rattle.mip_bcache.specs.Seen.{rows_at};
ghost use Rattle.mip_bulist.specs.Timers.{first_due};
ghost use Rattle.mip_outside.specs.Moments.{moments_after};
ghost use Rattle.mip_rules_mobile.specs.Calls as calls;
ghost use Rattle.mip_rules_mobile.specs.Calls.{Call};
ghost use Rattle.mip_rules_mobile.specs.Steps.{Called};
ghost use Rattle.mip_rules_mobile.specs.Questions.{fresh};
ghost use Rattle.mip_rules_mobile.specs.Transitions.{begun, noted};
ghost use Rattle.mip_mobile_calls.specs.Seen.{Shows};
ghost use Rattle.mip_mobile.specs.Performing.{Performs, Finishes, moment_in, transition_in};
ghost use Rattle.mip_mobile.specs.Stations.{with_clock, with_wire};
ghost use Rattle.mip_mobile.specs.contracts.machine.Machine.{the_row};
ghost use Rattle.std.specs.Borrow.{Lends, sem};

use mip_bcache::Row;
use mip_entries::Answers;
use mip_mobile_calls::{CallContext, Data, OriginalPacketRef};
use mip_nonce::Secrets;
use mip_outside::{Clock, Wire};
use mip_rules_mobile::Attachment;
use mip_transmission::{StationFault, send_all};
use mip_words::{Address, Memory, Moment, Shield};
use std::alloc::Global;

/// A mobile with its clock and its wire.
#[derive(Drop)]
pub struct Machine<C: Clock, W: Wire> {
    pub(crate) context: CallContext,
    pub(crate) clock: C,
    pub(crate) wire: W,
    pub(crate) fault: Option<StationFault>,
}

impl<C: Clock + Drop, W: Wire + Drop> Machine<C, W> {
    /// A new mobile, at home.
    pub fn new(
        alloc: Global,
        home: Address,
        declared: Option<Address>,
        secrets: Secrets,
        clock: C,
        wire: W,
        numbers: u8,
    ) -> Result<Machine<C, W>, Memory>
        requires home { IsTrue (is_routable home.0) }
        requires some { 1 ≤ numbers }
        requires few { numbers ≤ 8 }
        ensures known { IfOk result (λ m. m.context ≡ record { moment = 0; known = fresh home declared numbers secrets; answers = [] }) }
        ensures parts { IfOk result (λ m. (m.clock ≡ clock) × (m.wire ≡ wire) × (m.fault ≡ None)) }
    {
        let context = CallContext::open(alloc, home, declared, secrets, numbers)?;
        Ok(Machine {
            context,
            clock,
            wire,
            fault: None,
        })
    }

    /// Its clock. What is written there is in the machine once the borrow ends.
    pub fn clock(&mut self) -> &mut C
        ensures* lent { sem 𝓛 (Lends (the_row C.row W.row) C.row self.entry result (with_clock self.entry.now)) }
        ensures clock { result.now ≡ self.old.clock }
    {
        &mut self.clock
    }

    /// Its wire. What is written there is in the machine once the borrow ends.
    pub fn wire(&mut self) -> &mut W
        ensures* lent { sem 𝓛 (Lends (the_row C.row W.row) W.row self.entry result (with_wire self.entry.now)) }
        ensures wire { result.now ≡ self.old.wire }
    {
        &mut self.wire
    }

    /// Where it stands.
    pub fn standing(&self) -> Attachment
        ensures { result ≡ self.now.context.known.standing }
    {
        self.context.standing()
    }

    /// The row at a place among those that its correspondent part keeps, in order of home address, then of number.
    pub fn row(&self, now: Moment, place: u32) -> Option<&Row>
        requires { self.now.context.moment ≤ now.0 }
        ensures { option_copied result ≡ slice_get (rows_at self.now.context.known.part.known.cache now.0) place }
    {
        self.context.kept_row(now, place)
    }

    /// The earliest moment at which work is due.
    pub fn due(&self) -> Option<Moment>
        ensures { result ≡ first_due self.now.context.known.list.timers }
    {
        self.context.due()
    }

    /// A call begins: its moment is what the clock says, or that of the last call where this is later.
    pub fn begin(&mut self, alloc: Global) -> Result<(), Memory>
        ensures shows { (call : Call) → OnOk result (Shows self.new.context
            (noted (Called call) (begun (moment_in C.Clock self.old self.new) self.old.context.known))) }
        ensures rest { (self.new.wire ≡ self.old.wire) × (self.new.fault ≡ self.old.fault) }
        ensures read { C.ahead self.new.clock ≡ option_map moments_after (C.ahead self.old.clock) }
    {
        let now = self.clock.now().max(self.context.moment().0);
        self.context.call(alloc, Moment(now))
    }

    /// A call ends: its packets are handed to the wire, or its fault is kept.
    pub fn finish(
        &mut self,
        alloc: Global,
        done: Result<(), Memory>,
    ) -> Result<Answers, StationFault>
        requires { self.old.fault ≡ None }
        ensures finishes { Finishes W.Wire self.old self.new done result }
        ensures clock { self.new.clock ≡ self.old.clock }
        ensures well { OnOk result (self.new.fault ≡ None) }
        ensures kept { IfErr result (λ fault. self.new.fault ≡ Some fault) }
    {
        let result = self.finish_call(alloc, done);
        if let Err(fault) = result {
            self.fault = Some(fault);
        }
        result
    }

    fn finish_call(
        &mut self,
        alloc: Global,
        done: Result<(), Memory>,
    ) -> Result<Answers, StationFault>
        ensures finishes { Finishes W.Wire self.old self.new done result }
        ensures rest { (self.new.clock ≡ self.old.clock) × (self.new.fault ≡ self.old.fault) }
    {
        done?;
        let asked = self.context.take_answers(alloc)?;
        send_all(alloc, &mut self.wire, asked)
    }

    /// Takes a packet that was handed to it, by its number and shield.
    pub fn take(
        &mut self,
        alloc: Global,
        number: u64,
        shield: Option<Shield>,
        packet: &[u8],
    ) -> Result<Answers, StationFault>
        ensures performs { Performs C.Clock W.Wire self.old self.new (calls.Take number shield packet.now) result }
    {
        if let Some(fault) = self.fault {
            return Err(fault);
        }
        let done = self.take_context(alloc, number, shield, packet);
        self.finish(alloc, done)
    }

    #[tactic(auto, unfolding(mip_rules_mobile::specs::Doing::does))]
    fn take_context(
        &mut self,
        alloc: Global,
        number: u64,
        shield: Option<Shield>,
        packet: &[u8],
    ) -> Result<(), Memory>
        ensures shows { OnOk result (Shows self.new.context (transition_in C.Clock self.old self.new (calls.Take number shield packet.now))) }
        ensures rest { (self.new.wire ≡ self.old.wire) × (self.new.fault ≡ self.old.fault) }
        ensures read { C.ahead self.new.clock ≡ option_map moments_after (C.ahead self.old.clock) }
    {
        self.begin(alloc)?;
        mip_mobile_calls::take(alloc, &mut self.context, number, shield, packet)
    }

    /// Time goes on, and due work is done.
    pub fn tick(&mut self, alloc: Global) -> Result<Answers, StationFault>
        ensures performs { Performs C.Clock W.Wire self.old self.new calls.Tick result }
    {
        if let Some(fault) = self.fault {
            return Err(fault);
        }
        let done = self.tick_context(alloc);
        self.finish(alloc, done)
    }

    #[tactic(auto, unfolding(mip_rules_mobile::specs::Doing::does))]
    fn tick_context(&mut self, alloc: Global) -> Result<(), Memory>
        ensures shows { OnOk result (Shows self.new.context (transition_in C.Clock self.old self.new calls.Tick)) }
        ensures rest { (self.new.wire ≡ self.old.wire) × (self.new.fault ≡ self.old.fault) }
        ensures read { C.ahead self.new.clock ≡ option_map moments_after (C.ahead self.old.clock) }
    {
        self.begin(alloc)?;
        mip_mobile_calls::tick(alloc, &mut self.context)
    }

    /// Sends data.
    pub fn send(
        &mut self,
        alloc: Global,
        to: Address,
        data: &Data<'_>,
    ) -> Result<Answers, StationFault>
        ensures performs { Performs C.Clock W.Wire self.old self.new (calls.Send to data.now.proto data.now.payload.now) result }
    {
        if let Some(fault) = self.fault {
            return Err(fault);
        }
        let done = self.send_context(alloc, to, data);
        self.finish(alloc, done)
    }

    #[tactic(auto, unfolding(mip_rules_mobile::specs::Doing::does))]
    fn send_context(&mut self, alloc: Global, to: Address, data: &Data<'_>) -> Result<(), Memory>
        ensures shows { OnOk result (Shows self.new.context (transition_in C.Clock self.old self.new (calls.Send to data.now.proto data.now.payload.now))) }
        ensures rest { (self.new.wire ≡ self.old.wire) × (self.new.fault ≡ self.old.fault) }
        ensures read { C.ahead self.new.clock ≡ option_map moments_after (C.ahead self.old.clock) }
    {
        self.begin(alloc)?;
        mip_mobile_calls::send(alloc, &mut self.context, to, data)
    }

    /// Asks for a Binding Refresh Request to a home.
    pub fn refresh(&mut self, alloc: Global, home: Address) -> Result<Answers, StationFault>
        ensures performs { Performs C.Clock W.Wire self.old self.new (calls.Refresh home) result }
    {
        if let Some(fault) = self.fault {
            return Err(fault);
        }
        let done = self.refresh_context(alloc, home);
        self.finish(alloc, done)
    }

    #[tactic(auto, unfolding(mip_rules_mobile::specs::Doing::does))]
    fn refresh_context(&mut self, alloc: Global, home: Address) -> Result<(), Memory>
        ensures shows { OnOk result (Shows self.new.context (transition_in C.Clock self.old self.new (calls.Refresh home))) }
        ensures rest { (self.new.wire ≡ self.old.wire) × (self.new.fault ≡ self.old.fault) }
        ensures read { C.ahead self.new.clock ≡ option_map moments_after (C.ahead self.old.clock) }
    {
        self.begin(alloc)?;
        mip_mobile_calls::refresh(alloc, &mut self.context, home)
    }

    /// Solicits the prefixes of its home link.
    pub fn ask(&mut self, alloc: Global) -> Result<Answers, StationFault>
        ensures performs { Performs C.Clock W.Wire self.old self.new calls.Ask result }
    {
        if let Some(fault) = self.fault {
            return Err(fault);
        }
        let done = self.ask_context(alloc);
        self.finish(alloc, done)
    }

    #[tactic(auto, unfolding(mip_rules_mobile::specs::Doing::does))]
    fn ask_context(&mut self, alloc: Global) -> Result<(), Memory>
        ensures shows { OnOk result (Shows self.new.context (transition_in C.Clock self.old self.new calls.Ask)) }
        ensures rest { (self.new.wire ≡ self.old.wire) × (self.new.fault ≡ self.old.fault) }
        ensures read { C.ahead self.new.clock ≡ option_map moments_after (C.ahead self.old.clock) }
    {
        self.begin(alloc)?;
        mip_mobile_calls::ask(alloc, &mut self.context)
    }

    /// Loses all that it keeps, and goes on with these secrets.
    pub fn restart(&mut self, alloc: Global, secrets: Secrets) -> Result<Answers, StationFault>
        ensures performs { Performs C.Clock W.Wire self.old self.new (calls.Restart secrets) result }
    {
        if let Some(fault) = self.fault {
            return Err(fault);
        }
        let done = self.restart_context(alloc, secrets);
        self.finish(alloc, done)
    }

    #[tactic(auto, unfolding(mip_rules_mobile::specs::Doing::does))]
    fn restart_context(&mut self, alloc: Global, secrets: Secrets) -> Result<(), Memory>
        ensures shows { OnOk result (Shows self.new.context (transition_in C.Clock self.old self.new (calls.Restart secrets))) }
        ensures rest { (self.new.wire ≡ self.old.wire) × (self.new.fault ≡ self.old.fault) }
        ensures read { C.ahead self.new.clock ≡ option_map moments_after (C.ahead self.old.clock) }
    {
        self.begin(alloc)?;
        mip_mobile_calls::restart(alloc, &mut self.context, secrets)
    }

    /// Sends a packet from its home address.
    pub fn tunnel(
        &mut self,
        alloc: Global,
        inner: &OriginalPacketRef<'_>,
    ) -> Result<Answers, StationFault>
        ensures performs { Performs C.Clock W.Wire self.old self.new (calls.Tunnel inner.now.bytes.now) result }
    {
        if let Some(fault) = self.fault {
            return Err(fault);
        }
        let done = self.tunnel_context(alloc, inner);
        self.finish(alloc, done)
    }

    #[tactic(auto, unfolding(mip_rules_mobile::specs::Doing::does))]
    fn tunnel_context(&mut self, alloc: Global, inner: &OriginalPacketRef<'_>) -> Result<(), Memory>
        ensures shows { OnOk result (Shows self.new.context (transition_in C.Clock self.old self.new (calls.Tunnel inner.now.bytes.now))) }
        ensures rest { (self.new.wire ≡ self.old.wire) × (self.new.fault ≡ self.old.fault) }
        ensures read { C.ahead self.new.clock ≡ option_map moments_after (C.ahead self.old.clock) }
    {
        self.begin(alloc)?;
        mip_mobile_calls::tunnel(alloc, &mut self.context, inner)
    }
}
