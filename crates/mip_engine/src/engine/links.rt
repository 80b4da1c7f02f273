//! What an engine does with its network: packets, claims, and outsiders that listen.

ghost use Rattle.std.specs.Prelude.{◌≡◌, ◌<◌, ◌≤◌, not, true, false, if◌then◌else◌, length, IfOk, IfSome, OnOk, Option, None, Some, option_map, slice_get, slice_index_or};
ghost use Rattle.mip_links.specs.Table.{Post, link_of, in_pool};
ghost use Rattle.mip_words.specs.Holders.{holder_number};
ghost use Rattle.mip_links.specs.Nets.{claimed, hears_of, holder_of, is_held_by, left, lowest_of, posted, refusal, with_hearing};
ghost use Rattle.mip_history.specs.Delivery.{handed_over};
ghost use Rattle.mip_history.specs.Claims.{claim_entry};
ghost use Rattle.mip_engine.specs.Arrivals.{arrival_of, arrival_seen};
ghost use Rattle.mip_engine.specs.Engines.{with_net, claim_tried, released};

use crate::arrival::{Arrival, arrival_of};
use crate::claimer::Claimer;
use crate::claims::{claimed, taken};
use crate::engine::Engine;
use crate::handing::handed_in;
use mip_entries::Entry;
use mip_links::{ClaimFault, Delivery};
use mip_words::{Address, Bytes, Holder, LinkId, Memory, Prefix, Shield};
use std::alloc::Global;
use std::mem::replace;

impl Engine {
    /// The link of an address, by its prefix.
    pub fn link_of(&self, address: Address) -> Option<LinkId>
        ensures { option_map (λ l. l.0) result ≡ link_of self.now.net.links address.0 }
    {
        self.net.link_of(address)
    }

    /// The prefix of a link.
    pub fn prefix(&self, link: LinkId) -> Prefix
        requires { link.0 < length self.now.net.links }
        ensures { result.0 ≡ slice_index_or self.now.net.links link.0 0 }
    {
        self.net.prefix(link)
    }

    /// Whether an outsider listens on a link.
    pub fn hears(&self, outsider: u8, link: LinkId) -> bool
        ensures { result ≡ hears_of self.now.net.hearing outsider link.0 }
    {
        self.net.hears(outsider, link)
    }

    /// A packet enters the pool, with the next number.
    pub(crate) fn post(
        &mut self,
        from: LinkId,
        shield: Option<Shield>,
        packet: &[u8],
    ) -> Result<u64, Memory>
        requires { 40 ≤ length packet.now }
        ensures number { IfOk result (λ k. k ≡ length self.old.net.posts) }
        ensures after { OnOk result (self.new ≡ with_net (posted self.old.net (record { from = from.0; shield = shield; packet = packet.now })) self.old) }
    {
        self.net.post(from, shield, packet)
    }

    /// The number that the next packet takes.
    pub(crate) fn next(&self) -> u64
        ensures { result ≡ length self.now.net.posts }
    {
        self.net.next()
    }

    /// A packet leaves the pool, and says whether it was there.
    pub fn lose(&mut self, number: u64) -> bool
        ensures was { result ≡ slice_index_or self.old.net.flying number false }
        ensures after { self.new ≡ with_net (left self.old.net number) self.old }
    {
        self.net.lose(number)
    }

    /// The lowest number in the pool.
    pub fn lowest(&self) -> Option<u64>
        ensures { result ≡ lowest_of self.now.net.flying }
    {
        self.net.lowest()
    }

    /// The bytes of a packet as it was posted, in the pool or not: its fixed header of 40 bytes at least (RFC 8200 section 3).
    pub fn packet(&self, number: u64) -> Option<&[u8]>
        ensures found { option_map (λ p. p.now) result ≡ option_map (λ p. p.packet) (slice_get self.now.net.posts number) }
        ensures whole { IfSome result (λ p. 40 ≤ length p.now) }
    {
        self.net.packet(number)
    }

    /// A packet of the pool, and what becomes of it; it leaves the pool unless it is kept.
    #[tactic(auto, using(crate::proofs::DeliveryLaws::come_posted))]
    pub fn lift(&mut self, number: u64, keep: bool) -> Option<Arrival>
        ensures found { option_map arrival_seen result ≡ option_map (arrival_of self.old.net) (in_pool self.old.net.flying self.old.net.posts number) }
        ensures after { self.new ≡ with_net (if keep then self.old.net else left self.old.net number) self.old }
        ensures posted { IfSome result (λ _. number < length self.new.net.posts) }
    {
        let delivery = self.net.deliver(number, keep);
        if delivery == Delivery::Idle {
            return None;
        }
        Some(arrival_of(&self.net, number, delivery))
    }

    /// A packet as it is handed over: its hop limit is one less where it has come to another link. It stands in memory of the
    /// engine, which is to be given back for the next one.
    pub fn handed_packet(
        &mut self,
        alloc: Global,
        number: u64,
        link: Option<LinkId>,
    ) -> Result<Bytes, Memory>
        requires { number < length self.old.net.posts }
        ensures handed { IfOk result (λ b. (post : Post) → slice_get self.old.net.posts number ≡ Some post → b ≡ handed_over post.packet (option_map (λ l. l.0) link)) }
        ensures same { self.new ≡ self.old }
    {
        let buffer = replace(&mut self.buffer, Bytes::new(alloc));
        let Some(packet) = self.net.packet(number) else {
            unreachable!();
        };
        handed_in(buffer, packet, link)
    }

    /// The memory of a packet that was handed over comes back.
    pub fn give_back(&mut self, packet: Bytes)
        ensures { self.new ≡ self.old }
    {
        self.buffer = packet;
    }

    /// Somebody takes an address on a link, unless somebody else has it. Says what is to be noted.
    #[tactic(auto, using(crate::proofs::ClaimLaws::claimed_entry, crate::proofs::ClaimLaws::taken_entry, crate::proofs::ClaimLaws::never_unlinked))]
    pub(crate) fn take_claim(
        &mut self,
        by: Claimer,
        link: LinkId,
        address: Address,
    ) -> Result<Entry, Memory>
        requires link { link_of self.old.net.links address.0 ≡ Some link.0 }
        ensures entry { IfOk result (λ x. x ≡ claim_entry (holder_number by.who) address link.0 (holder_of self.old.net.rows address.0)) }
        ensures after { OnOk result (self.new ≡ with_net (claim_tried self.old.net (holder_number by.who) address) self.old) }
    {
        let who = by.who;
        match self.net.claim(who, address) {
            Ok(()) => Ok(claimed(who.number(), link, address)),
            Err(ClaimFault::Taken { by }) => Ok(taken(who.number(), link, address, by.number())),
            Err(ClaimFault::NoLink) => unreachable!(),
            Err(ClaimFault::Memory) => Err(Memory),
        }
    }

    /// Somebody takes an address on a link, which nobody has.
    pub(crate) fn take_free(&mut self, by: Claimer, address: Address) -> Result<(), Memory>
        requires free { refusal self.old.net (holder_number by.who) address.0 ≡ None }
        ensures { OnOk result (self.new ≡ with_net (claimed self.old.net (holder_number by.who) address) self.old) }
    {
        match self.net.claim(by.who, address) {
            Ok(()) => Ok(()),
            Err(ClaimFault::Memory) => Err(Memory),
            Err(_) => unreachable!(),
        }
    }

    /// Somebody gives an address up, and says whether it had it.
    pub(crate) fn release(&mut self, who: Holder, address: Address) -> bool
        ensures was { result ≡ is_held_by (holder_of self.old.net.rows address.0) (holder_number who) }
        ensures small { result ≡ true → holder_number who < 256 }
        ensures after { self.new ≡ with_net (released self.old.net (holder_number who) address) self.old }
    {
        self.net.release(who, address)
    }

    /// An outsider listens on a link from now on. Says whether it did not before.
    pub fn begin_listening(&mut self, outsider: u8, link: LinkId) -> Result<bool, Memory>
        requires outsider { outsider < 8 }
        requires link { link.0 < length self.old.net.links }
        ensures was { IfOk result (λ new. new ≡ not (hears_of self.old.net.hearing outsider link.0)) }
        ensures after { OnOk result (self.new ≡ with_net (with_hearing self.old.net outsider link.0 true) self.old) }
    {
        self.net.listen(outsider, link)
    }

    /// An outsider listens on a link no more. Says whether it did before.
    pub fn end_listening(&mut self, outsider: u8, link: LinkId) -> bool
        requires outsider { outsider < 8 }
        requires link { link.0 < length self.old.net.links }
        ensures was { result ≡ hears_of self.old.net.hearing outsider link.0 }
        ensures after { self.new ≡ with_net (with_hearing self.old.net outsider link.0 false) self.old }
    {
        self.net.deaf(outsider, link)
    }
}
