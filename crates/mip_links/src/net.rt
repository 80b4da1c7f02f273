ghost use Rattle.std.specs.Prelude.{◌≡◌, ◌≢◌, ◌==◌, ◌&&◌, ℕ, ◌<◌, ◌≤◌, length, map, replicate, false, true, not, if◌then◌else◌, None, Some, Ok, Err, IfOk, IfSome, OnOk, OnErr, option_map, slice_get, slice_index_or};
ghost use Rattle.mip_links.specs.Kept.{post_of};
ghost use Rattle.mip_words.specs.Holders.{holder_at, holder_number};
ghost use Rattle.mip_links.specs.declared.claim_fault.ClaimFault.TheVariants.{Taken};
ghost use Rattle.mip_links.specs.Table.{delivery, fate_of, held_by, in_pool, is_address, link_of};
ghost use Rattle.mip_links.specs.Nets.{new_net, holder_of, has_room, put, declared_of, asked_of, hears_of, lowest_of, spot, with_rows, with_hearing, posted, left, claimed, refusal, is_held_by};

use crate::claim_fault::ClaimFault;
use crate::delivery::Delivery;
use crate::flight::Flight;
use crate::places::{first_after, link_place, stands};
use crate::posted::Posted;
use crate::posts::Posts;
use crate::rows;
use indexmap::IndexMap;
use mip_words::{Address, HOLDERS, Holder, LinkId, Memory, Prefix, Shield, Why};
use std::alloc::Global;
use std::marker::Model;

const LINKS: usize = 32;

const EARS: usize = 256;

/// A network. Its table of claims has the numbers of the holders.
#[derive(Drop)]
pub struct Net {
    links: Vec<Prefix>,
    claims: IndexMap<u128, Option<u8>>,
    firsts: Vec<Option<Address>>,
    posts: Posts,
    flying: Vec<bool>,
    low: usize,
    hearing: Vec<bool>,
}

impl Model for Net {
    ghost use Rattle.std.specs.Prelude.{map};
    ghost use Rattle.mip_links.specs.Nets.{NetSeen, IsNet};

    ghost Value = { NetSeen };

    ghost view = { λ n. record {
      links = map (λ p. p.0) n.links.items;
      rows = n.claims.entries;
      firsts = n.firsts.items;
      posts = n.posts;
      flying = n.flying.items;
      hearing = n.hearing.items;
    } };

    ghost invariant = { λ n. IsNet (record {
      links = map (λ p. p.0) n.links.items;
      rows = n.claims.entries;
      firsts = n.firsts.items;
      posts = n.posts;
      flying = n.flying.items;
      hearing = n.hearing.items;
    }) n.low };
}

impl Net {
    /// A network of these links.
    pub fn new(alloc: Global, links: &[Prefix]) -> Result<Net, Memory>
        requires { length links.now ≤ 32 }
        ensures { IfOk result (λ n. n ≡ new_net (map (λ p. p.0) links.now)) }
    {
        Ok(Net {
            links: Vec::from_slice(alloc, links)?,
            claims: IndexMap::new(alloc),
            firsts: no_firsts(alloc)?,
            posts: Posts::new(alloc),
            flying: Vec::new(alloc),
            low: 0,
            hearing: no_ears(alloc)?,
        })
    }

    /// The link of an address: the first that has its prefix.
    pub fn link_of(&self, address: Address) -> Option<LinkId>
        ensures found { option_map (λ link. link.0) result ≡ link_of self.now.links address.0 }
        ensures within { IfSome result (λ link. link.0 < 32) }
    {
        let place = link_place(&self.links, address)?;
        Some(LinkId(place))
    }

    /// The prefix of a link.
    pub fn prefix(&self, link: LinkId) -> Prefix
        requires { link.0 < length self.now.links }
        ensures { result.0 ≡ slice_index_or self.now.links link.0 0 }
    {
        self.links[usize::from(link.0)]
    }

    /// The address that a holder claimed first.
    pub fn declared(&self, by: Holder) -> Option<Address>
        ensures { result ≡ declared_of self.now.firsts (holder_number by) }
    {
        match self.firsts.get(by.place()) {
            Some(first) => *first,
            None => None,
        }
    }

    /// Makes room for this many packets more.
    pub fn reserve_posts(&mut self, more: usize) -> Result<(), Memory>
        ensures { self.new ≡ self.old }
    {
        self.flying.reserve(more)?;
        self.posts.reserve(more)?;
        Ok(())
    }

    /// Puts a packet into the pool, and gives its number: packets are counted from 0.
    pub fn post(
        &mut self,
        from: LinkId,
        shield: Option<Shield>,
        packet: &[u8],
    ) -> Result<u64, Memory>
        requires { 40 ≤ length packet.now }
        ensures number { IfOk result (λ number. number ≡ length self.old.posts) }
        ensures ok { OnOk result (self.new ≡ posted self.old (record { from = from.0; shield = shield; packet = packet.now })) }
        ensures err { OnErr result (self.new ≡ self.old) }
    {
        let number = self.posts.len();
        self.flying.reserve(1)?;
        self.posts.push(from, shield, packet)?;
        self.flying.push_reserved(true);
        Ok(number as u64)
    }

    /// What becomes of a packet of the pool, which leaves the pool unless it is kept. Its hop limit is one less
    /// where it comes to another link: whoever hands it over lowers it.
    pub fn deliver(&mut self, number: u64, keep: bool) -> Delivery
        ensures answers { fate_of result ≡ delivery (asked_of self.old) (in_pool self.old.flying self.old.posts number) }
        ensures after { self.new ≡ (if keep then self.old else left self.old number) }
    {
        let delivery = self.arrival(number);
        if !keep {
            self.lose(number);
        }
        delivery
    }

    fn arrival(&self, number: u64) -> Delivery
        ensures { fate_of result ≡ delivery (asked_of self.now) (in_pool self.now.flying self.now.posts number) }
    {
        if !stands(&self.flying, number as usize) {
            return Delivery::Idle;
        }
        match self.posts.get(number as usize) {
            Some(post) => self.arrival_of(&post),
            None => Delivery::Idle,
        }
    }

    fn arrival_of(&self, post: &Posted<'_>) -> Delivery
        requires { 40 ≤ length post.now.packet.now }
        ensures { fate_of result ≡ delivery (asked_of self.now) (Some (post_of post.now)) }
    {
        let to = post.destination();
        let flight = post.flight;
        let Some(link) = self.link_of(to) else {
            return Delivery::Gone(Why::NoLink);
        };
        if link.0 != flight.from.0 && post.hop() < 2 {
            return Delivery::Gone(Why::Hop);
        }
        match rows::holder(&self.claims, to) {
            Some(by) => held(flight.shield, by, self.declared(Holder::of(by))),
            None => Delivery::Gone(Why::NoHolder),
        }
    }

    /// Takes a packet out of the pool, and says whether it was there.
    pub fn lose(&mut self, number: u64) -> bool
        ensures was { result ≡ slice_index_or self.old.flying number false }
        ensures after { self.new ≡ left self.old number }
    {
        let place = number as usize;
        let was = stands(&self.flying, place);
        if place < self.flying.len() {
            self.flying[place] = false;
            self.low = first_after(&self.flying, self.low);
        }
        was
    }

    /// The lowest number in the pool.
    pub fn lowest(&self) -> Option<u64>
        ensures { result ≡ lowest_of self.now.flying }
    {
        if self.low < self.flying.len() {
            Some(self.low as u64)
        } else {
            None
        }
    }

    /// The number that the next packet takes.
    pub fn next(&self) -> u64
        ensures { result ≡ length self.now.posts }
    {
        self.posts.len() as u64
    }

    /// The bytes of a packet as it was posted, in the pool or not: its fixed header at least.
    pub fn packet(&self, number: u64) -> Option<&[u8]>
        ensures found { option_map (λ p. p.now) result ≡ option_map (λ p. p.packet) (slice_get self.now.posts number) }
        ensures whole { IfSome result (λ p. 40 ≤ length p.now) }
    {
        let post = self.posts.get(number as usize)?;
        Some(post.packet)
    }

    /// The link that a packet was sent from, and its shield, in the pool or not.
    pub fn flight(&self, number: u64) -> Option<Flight>
        ensures from { option_map (λ f. f.from.0) result ≡ option_map (λ p. p.from) (slice_get self.now.posts number) }
        ensures shield { option_map (λ f. f.shield) result ≡ option_map (λ p. p.shield) (slice_get self.now.posts number) }
    {
        let post = self.posts.get(number as usize)?;
        Some(post.flight)
    }

    /// Whether an outsider, by its number among outsiders, listens on a link.
    pub fn hears(&self, outsider: u8, link: LinkId) -> bool
        ensures { result ≡ hears_of self.now.hearing outsider link.0 }
    {
        outsider < 8 && link.0 < 32 && stands(&self.hearing, spot(outsider, link))
    }

    /// An outsider listens on a link from now on. Says whether it did not before.
    pub fn listen(&mut self, outsider: u8, link: LinkId) -> Result<bool, Memory>
        requires outsider { outsider < 8 }
        requires link { link.0 < length self.old.links }
        ensures was { result ≡ Ok (not (hears_of self.old.hearing outsider link.0)) }
        ensures after { self.new ≡ with_hearing self.old outsider link.0 true }
    {
        let heard = self.hears(outsider, link);
        self.hearing[spot(outsider, link)] = true;
        Ok(!heard)
    }

    /// An outsider listens on a link no more. Says whether it did before.
    pub fn deaf(&mut self, outsider: u8, link: LinkId) -> bool
        requires outsider { outsider < 8 }
        requires link { link.0 < length self.old.links }
        ensures was { result ≡ hears_of self.old.hearing outsider link.0 }
        ensures after { self.new ≡ with_hearing self.old outsider link.0 false }
    {
        let heard = self.hears(outsider, link);
        self.hearing[spot(outsider, link)] = false;
        heard
    }

    /// Who holds an address.
    pub fn holder(&self, address: Address) -> Option<Holder>
        ensures exact { result ≡ option_map holder_at (holder_of self.now.rows address.0) }
        ensures is { option_map holder_number result ≡ holder_of self.now.rows address.0 }
        ensures small { IfSome result (λ h. holder_number h < 256) }
    {
        let number = rows::holder(&self.claims, address)?;
        Some(Holder::of(number))
    }

    /// Makes room for an address, so that memory is not wanting for a claim of it.
    #[tactic(auto, using(crate::proofs::NetLaws::has_room_after, crate::proofs::NetLaws::holder_same))]
    pub fn reserve(&mut self, address: Address) -> Result<(), Memory>
        ensures ok { OnOk result (self.new ≡ with_rows self.old (put self.old.rows address.0 (holder_of self.old.rows address.0))) }
        ensures err { OnErr result (self.new ≡ self.old) }
        ensures holders { (a : ℕ) → holder_of self.new.rows a ≡ holder_of self.old.rows a }
        ensures room { OnOk result (has_room self.new address.0 ≡ true) }
    {
        let holder = rows::holder(&self.claims, address);
        rows::put_holder(&mut self.claims, address, holder)
    }

    /// Gives an address to a holder.
    pub fn claim(&mut self, by: Holder, address: Address) -> Result<(), ClaimFault>
        requires { holder_number by < 40 }
        ensures ok { OnOk result (refusal self.old (holder_number by) address.0 ≡ None) }
        ensures after { OnOk result (self.new ≡ claimed self.old (holder_number by) address) }
        ensures err { OnErr result (self.new ≡ self.old) }
        ensures refused { (fault : ClaimFault) → refusal self.old (holder_number by) address.0 ≡ Some fault → result ≡ Err fault }
        ensures only { (fault : ClaimFault) → result ≡ Err fault → fault ≢ ClaimFault.Memory → refusal self.old (holder_number by) address.0 ≡ Some fault }
        ensures room { has_room self.old address.0 ≡ true → result ≢ Err ClaimFault.Memory }
        ensures holders { OnOk result ((a : ℕ) → holder_of self.new.rows a ≡ (if a == address.0 then Some (holder_number by) else holder_of self.old.rows a)) }
        ensures small { (other : Holder) → result ≡ Err (Taken other) → holder_number other < 256 }
    {
        let number = by.number();
        if self.link_of(address).is_none() {
            return Err(ClaimFault::NoLink);
        }
        if let Some(other) = rows::holder(&self.claims, address) {
            if other != number {
                return Err(ClaimFault::Taken {
                    by: Holder::of(other),
                });
            }
        }
        rows::put_holder(&mut self.claims, address, Some(number))?;
        if self.firsts[by.place()].is_none() {
            self.firsts[by.place()] = Some(address);
        }
        Ok(())
    }

    /// Takes an address from its holder, and says whether this was it.
    pub fn release(&mut self, by: Holder, address: Address) -> bool
        ensures was { result ≡ is_held_by (holder_of self.old.rows address.0) (holder_number by) }
        ensures small { result ≡ true → holder_number by < 256 }
        ensures after { self.new ≡ (if result then with_rows self.old (put self.old.rows address.0 None) else self.old) }
        ensures holders { (a : ℕ) → holder_of self.new.rows a ≡ (if result && a == address.0 then None else holder_of self.old.rows a) }
    {
        let Some(holder) = rows::holder(&self.claims, address) else {
            return false;
        };
        if usize::from(holder) != by.place() {
            return false;
        }
        match rows::put_holder(&mut self.claims, address, None) {
            Ok(()) => true,
            Err(Memory) => unreachable!(),
        }
    }
}

fn no_firsts(alloc: Global) -> Result<Vec<Option<Address>>, Memory>
    ensures { IfOk result (λ firsts. firsts.items ≡ replicate 40 None) }
{
    let firsts = vec![in alloc; None; HOLDERS]?;
    Ok(firsts)
}

fn no_ears(alloc: Global) -> Result<Vec<bool>, Memory>
    ensures { IfOk result (λ ears. ears.items ≡ replicate 256 false) }
{
    let ears = vec![in alloc; false; EARS]?;
    Ok(ears)
}

/// Whether the holder of a packet's destination, by its number, is handed it.
fn held(shield: Option<Shield>, by: u8, first: Option<Address>) -> Delivery
    ensures { fate_of result ≡ held_by shield by first }
{
    match (Holder::of(by), shield) {
        (Holder::Node(node), None) => Delivery::Node(node),
        (Holder::Outsider(outsider), None) => Delivery::Outsider(outsider),
        (Holder::Node(node), Some(shield)) if is_address(first, shield.to) => Delivery::Node(node),
        (_, Some(_)) => Delivery::Gone(Why::Shield),
    }
}

fn is_address(first: Option<Address>, address: Address) -> bool
    ensures { result ≡ is_address first address }
{
    match first {
        Some(first) => first.0 == address.0,
        None => false,
    }
}

/// The place of the flag of an outsider and a link.
fn spot(outsider: u8, link: LinkId) -> usize
    ensures { result ≡ spot outsider link.0 }
{
    usize::from(outsider) * LINKS + usize::from(link.0)
}
