//! What a home agent that C holds does about each call.

ghost use Rattle.std.specs.Prelude.{◌≡◌, slice_get, true};
ghost use Rattle.mip_rules_agent.specs.Calls as calls;
ghost use Rattle.mip_rules_agent.specs.Calls.{claim_for};
ghost use Rattle.mip_c_words.specs.AnswerQueues.{TellsNext};
ghost use Rattle.mip_c_agent.specs.Neighbourhoods.{around_of};
ghost use Rattle.mip_c_agent.specs.Shields.{shield_of};
ghost use Rattle.mip_c_agent.specs.Sixteens.{are_addresses};
ghost use Rattle.mip_c_agent.specs.Stations.{Answers as AnswersCall, Hears, TellsCareof, TellsRow, TellsDue};

use crate::neighbourhood::Neighbourhood;
use crate::registration_fields;
use crate::registration_fields::RegistrationFields;
use crate::shield_fields::{ShieldFields, shield_of};
use crate::sixteens::are_addresses;
use crate::station::Station;
use mip_c_words::answer_fields::AnswerFields;
use mip_c_words::answer_queue::AnswerQueue;
use mip_c_words::moments::is_late;
use mip_c_words::status::{ARGUMENT, LATE, MEMORY, NONE, OK};
use mip_entries::Answers;
use mip_words::{Address, Memory, Moment};
use std::alloc::Global;

impl Station {
    /// Takes a packet that was handed to the agent, by its number and shield, where others hold these addresses of its link.
    #[tactic(auto, using(crate::proofs::Rooms::is_ready))]
    pub fn take(
        &mut self,
        alloc: Global,
        now: Moment,
        number: u64,
        shield: &ShieldFields,
        others: &[u8],
        packet: &[u8],
    ) -> u32
        ensures { AnswersCall (are_addresses others.now) self.old self.new now.0
            (calls.Take number (shield_of shield.now) packet.now (claim_for (around_of others.now) packet.now)) result }
    {
        if is_late(self.last, now) {
            return LATE;
        }
        if !are_addresses(others) {
            return ARGUMENT;
        }
        let mut place = Neighbourhood { others };
        let shield = shield_of(shield);
        match self
            .node
            .take(alloc, &mut place, now, number, shield, packet)
        {
            Ok(answers) => {
                self.last = now;
                self.queue = AnswerQueue::of(answers);
                OK
            }
            Err(Memory) => MEMORY,
        }
    }

    /// Time goes on: the registrations whose time is over end.
    pub fn tick(&mut self, alloc: Global, now: Moment) -> u32
        ensures { AnswersCall true self.old self.new now.0 calls.Tick result }
    {
        if is_late(self.last, now) {
            return LATE;
        }
        let mut place = Neighbourhood { others: &[] };
        match self.node.tick(alloc, &mut place, now) {
            Ok(answers) => {
                self.last = now;
                self.queue = AnswerQueue::of(answers);
                OK
            }
            Err(Memory) => MEMORY,
        }
    }

    /// From now on the prefix is valid and preferred for so many seconds.
    pub fn plan(&mut self, alloc: Global, now: Moment, valid: u32, preferred: u32) -> u32
        ensures { AnswersCall true self.old self.new now.0 (calls.Plan valid preferred) result }
    {
        if is_late(self.last, now) {
            return LATE;
        }
        match self.node.plan(alloc, now, valid, preferred) {
            Ok(answers) => {
                self.last = now;
                self.queue = AnswerQueue::of(answers);
                OK
            }
            Err(Memory) => MEMORY,
        }
    }

    /// Another home agent advertised itself.
    pub fn heard(
        &mut self,
        alloc: Global,
        now: Moment,
        agent: Address,
        preference: u16,
        life: u16,
    ) -> u32
        ensures { Hears self.old self.new now.0 (calls.Hear agent preference life) result }
    {
        if is_late(self.last, now) {
            return LATE;
        }
        match Answers::new(alloc) {
            Ok(answers) => match self.node.heard(now, agent, preference, life) {
                Ok(()) => {
                    self.last = now;
                    self.queue = AnswerQueue::of(answers);
                    OK
                }
                Err(Memory) => MEMORY,
            },
            Err(Memory) => MEMORY,
        }
    }

    /// Tells the next answer of the last call.
    pub fn next(&mut self, fields: &mut AnswerFields, bytes: &mut [u8], size: &mut usize) -> u32
        ensures next { TellsNext (slice_get self.old.queue.answers self.old.queue.given) self.old.queue self.new.queue result
            fields.old fields.new bytes.old bytes.new size.old size.new }
        ensures same { (self.new.node ≡ self.old.node) × (self.new.last ≡ self.old.last) }
    {
        self.queue.next(fields, bytes, size)
    }

    /// Tells the care-of address that is registered for a home.
    pub fn careof(&self, now: Moment, home: Address, careof: &mut [u8; 16]) -> u32
        ensures { TellsCareof self.now now.0 home result careof.old careof.new }
    {
        if is_late(self.last, now) {
            return LATE;
        }
        match self.node.careof(now, home) {
            Some(address) => {
                *careof = address.bytes();
                OK
            }
            None => NONE,
        }
    }

    /// Tells the registered home at a place.
    pub fn row(&self, now: Moment, place: u32, row: &mut RegistrationFields) -> u32
        ensures { TellsRow self.now now.0 place result row.old row.new }
    {
        if is_late(self.last, now) {
            return LATE;
        }
        match self.node.row(now, place) {
            Some(kept) => {
                *row = registration_fields::fields_of(&kept);
                OK
            }
            None => NONE,
        }
    }

    /// Tells the moment of the first end of a registration.
    pub fn due(&self, due: &mut u64) -> u32
        ensures { TellsDue self.now result due.old due.new }
    {
        match self.node.due() {
            Some(end) => {
                *due = end.0;
                OK
            }
            None => NONE,
        }
    }
}
