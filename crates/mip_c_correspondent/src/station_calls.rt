//! What a correspondent that C holds does about each call.

ghost use Rattle.std.specs.Prelude.{◌≡◌, slice_get, None, true};
ghost use Rattle.mip_rules_correspondent.specs.Calls as calls;
ghost use Rattle.mip_c_words.specs.AnswerQueues.{TellsNext};
ghost use Rattle.mip_c_correspondent.specs.Stations.{Answers as AnswersCall, Ticks, TellsRoute, TellsRow, is_sendable};

use crate::row_fields;
use crate::row_fields::RowFields;
use crate::station::Station;
use mip_c_words::answer_fields::AnswerFields;
use mip_c_words::answer_queue::AnswerQueue;
use mip_c_words::moments::is_late;
use mip_c_words::status::{ARGUMENT, LATE, MEMORY, NONE, OK};
use mip_entries::Answers;
use mip_words::protocol::{ICMPV6, IPV6, MOBILITY_HEADER, NO_NEXT_HEADER};
use mip_words::{Address, Memory, Moment};
use std::alloc::Global;

fn is_sendable(proto: u8, payload: &[u8]) -> bool
    ensures { result ≡ is_sendable proto payload.now }
{
    let data = proto != IPV6
        && proto != ICMPV6
        && proto != NO_NEXT_HEADER
        && proto != MOBILITY_HEADER;
    let body = !matches!(proto, 0 | 43 | 44 | 50 | 51 | 60);
    data && body && payload.len() <= 512
}

impl Station {
    /// Takes a packet that was handed to the node, by its number and without a shield.
    pub fn take(&mut self, alloc: Global, now: Moment, number: u64, packet: &[u8]) -> u32
        ensures { AnswersCall true self.old self.new now.0 (calls.Take number None packet.now) result }
    {
        if is_late(self.last, now) {
            return LATE;
        }
        match self.node.take(alloc, now, number, None, packet) {
            Ok(answers) => {
                self.last = now;
                self.queue = AnswerQueue::of(answers);
                OK
            }
            Err(Memory) => MEMORY,
        }
    }

    /// Asks the care-of address that is held for a home for a Binding Update.
    pub fn refresh(&mut self, alloc: Global, now: Moment, home: Address) -> u32
        ensures { AnswersCall true self.old self.new now.0 (calls.Refresh home) result }
    {
        if is_late(self.last, now) {
            return LATE;
        }
        match self.node.refresh(alloc, now, home) {
            Ok(answers) => {
                self.last = now;
                self.queue = AnswerQueue::of(answers);
                OK
            }
            Err(Memory) => MEMORY,
        }
    }

    /// Sends data, where it can be sent.
    pub fn send(
        &mut self,
        alloc: Global,
        now: Moment,
        to: Address,
        proto: u8,
        payload: &[u8],
    ) -> u32
        ensures { AnswersCall (is_sendable proto payload.now) self.old self.new now.0 (calls.Send to proto payload.now) result }
    {
        if is_late(self.last, now) {
            return LATE;
        }
        if !is_sendable(proto, payload) {
            return ARGUMENT;
        }
        match self.node.send(alloc, now, to, proto, payload) {
            Ok(answers) => {
                self.last = now;
                self.queue = AnswerQueue::of(answers);
                OK
            }
            Err(Memory) => MEMORY,
        }
    }

    /// Time goes on, and rows past their time are given up.
    pub fn tick(&mut self, alloc: Global, now: Moment) -> u32
        ensures { Ticks self.old self.new now.0 result }
    {
        if is_late(self.last, now) {
            return LATE;
        }
        match Answers::new(alloc) {
            Ok(answers) => {
                self.node.tick(now);
                self.last = now;
                self.queue = AnswerQueue::of(answers);
                OK
            }
            Err(Memory) => MEMORY,
        }
    }

    /// Tells the next answer of the last call.
    pub fn next(&mut self, fields: &mut AnswerFields, bytes: &mut [u8], size: &mut usize) -> u32
        ensures next { TellsNext (slice_get self.old.queue.answers self.old.queue.given) self.old.queue self.new.queue result
            fields.old fields.new bytes.old bytes.new size.old size.new }
        ensures same { (self.new.node ≡ self.old.node) × (self.new.last ≡ self.old.last) }
    {
        self.queue.next(fields, bytes, size)
    }

    /// Tells the care-of address that is held for a home.
    pub fn route(&self, now: Moment, peer: Address, careof: &mut [u8; 16]) -> u32
        ensures { TellsRoute self.now now.0 peer result careof.old careof.new }
    {
        if is_late(self.last, now) {
            return LATE;
        }
        match self.node.route(now, peer) {
            Some(address) => {
                *careof = address.bytes();
                OK
            }
            None => NONE,
        }
    }

    /// Tells the row at a place.
    pub fn row(&self, now: Moment, place: u32, row: &mut RowFields) -> u32
        ensures { TellsRow self.now now.0 place result row.old row.new }
    {
        if is_late(self.last, now) {
            return LATE;
        }
        match self.node.row(now, place) {
            Some(kept) => {
                *row = row_fields::fields_of(kept);
                OK
            }
            None => NONE,
        }
    }
}
