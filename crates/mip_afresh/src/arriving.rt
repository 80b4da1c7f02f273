//! A packet of the pool is delivered.

ghost use Rattle.std.specs.Prelude.{◌≡◌, ◌+◌, false, OnOk, IfOk, if◌then◌else◌, option_map, slice_index_or};
ghost use Rattle.mip_entries.specs.declared.entry.Entry.TheVariants.{Handed, Lost, Idle as Stays};
ghost use Rattle.mip_links.specs.Table as table;
ghost use Rattle.mip_links.specs.Table.{Post, in_pool};
ghost use Rattle.mip_links.specs.Nets.{lowest_of};
ghost use Rattle.mip_history.specs.Runs.{note, without};
ghost use Rattle.mip_history.specs.Delivery.{is_no_holder, handed_over, overheard_at, hears_there, held_by_outsider, became};
ghost use Rattle.mip_history.specs.Permitted.{lost};
ghost use Rattle.mip_afresh.specs.Tellings.{with_run, post_seen};
ghost use Rattle.mip_afresh.specs.Arrivals.{link_seen, IsLanding, IsLandingIn, Lands, Arrives};

use crate::fate::Fate;
use crate::fates::destination_in;
use crate::landing::Landing;
use crate::links::{link_of, other_link};
use crate::packet_bytes::PacketBytes;
use crate::posted::Posted;
use crate::telling::Telling;
use mip_entries::Entry;
use mip_ipv6::lower;
use mip_words::{Bytes, LinkId, Memory, NodeId, Shield, Why};
use std::alloc::Global;

/// What a packet came to that was delivered.
#[derive(Drop)]
pub enum Arrival {
    /// Nobody acts.
    Done,
    /// It was handed to a node under its shield, as these bytes, and the node acts.
    Handed {
        node: NodeId,
        shield: Option<Shield>,
        packet: Bytes,
    },
}

/// A packet as it is handed over: with its hop limit one less where it comes to another link.
fn handed_over(
    alloc: Global,
    packet: PacketBytes<'_>,
    link: Option<LinkId>,
) -> Result<Bytes, Memory>
    ensures { IfOk result (λ b. b ≡ handed_over packet.entry.bytes.now (link_seen link)) }
{
    match link {
        None => Bytes::copy(alloc, packet.bytes),
        Some(_) => lower(alloc, packet.bytes),
    }
}

/// Nobody holds the destination.
fn is_no_holder(why: Why) -> bool
    ensures { result ≡ is_no_holder why }
{
    matches!(why, Why::NoHolder)
}

impl Telling {
    /// The packet with this number, where it is in the pool.
    fn in_pool(&self, number: u64) -> Option<&Posted>
        ensures { option_map (λ p. post_seen p.now) result ≡ in_pool self.now.run.flying self.now.run.posts number }
    {
        if self.is_flying(number) {
            self.posts.get(number as usize)
        } else {
            None
        }
    }

    /// What a packet of the pool comes to.
    fn landing_of(&self, alloc: Global, post: &Posted) -> Result<Landing, Memory>
        ensures { IfOk result (IsLanding self.now.setup self.now.run.past (post_seen post.now)) }
    {
        let packet = post.bytes();
        let link = link_of(self.setting.few_links(), destination_in(packet));
        let link = other_link(link, post.from);
        Ok(Landing {
            fate: self.fate_of(post),
            shield: post.shield,
            link,
            packet: handed_over(alloc, packet, link)?,
        })
    }

    /// It is heard on the link that it comes to.
    fn overhear_at(
        &mut self,
        alloc: Global,
        link: Option<LinkId>,
        shield: Option<Shield>,
        number: u64,
    ) -> Result<(), Memory>
        ensures { (post : Post) → post.shield ≡ shield
            → OnOk result (self.new ≡ with_run (overheard_at self.old.setup post number (link_seen link) self.old.run) self.old) }
    {
        match link {
            Some(link) => self.overhear(alloc, link, shield, None, number),
            None => Ok(()),
        }
    }

    /// An outsider listens on the link that it comes to.
    fn hears_there(&self, outsider: u8, link: Option<LinkId>) -> bool
        ensures { result ≡ hears_there self.now.run outsider (link_seen link) }
    {
        match link {
            Some(link) => self.hears(outsider, link),
            None => false,
        }
    }

    /// An outsider that holds the destination has heard it once.
    fn hold_by_outsider(
        &mut self,
        number: u64,
        outsider: u8,
        link: Option<LinkId>,
    ) -> Result<(), Memory>
        ensures { OnOk result (self.new ≡ with_run (held_by_outsider self.old.run number outsider (link_seen link)) self.old) }
    {
        if self.hears_there(outsider, link) {
            return Ok(());
        }
        self.note(Entry::Heard { number, outsider })
    }

    /// It leaves the pool, unless it is kept.
    fn leave_unless(&mut self, keep: bool, number: u64)
        ensures { self.new ≡ with_run (if keep then self.old.run else without number self.old.run) self.old }
    {
        if !keep {
            self.leave(number);
        }
    }

    /// It comes to nobody; where nobody holds its destination, it is heard on the link that it comes to.
    fn go_nowhere(
        &mut self,
        alloc: Global,
        number: u64,
        why: Why,
        landing: &Landing,
    ) -> Result<(), Memory>
        ensures { (post : Post) → post.shield ≡ landing.now.shield
            → OnOk result (self.new ≡ with_run (became self.old.setup number post (link_seen landing.now.link) self.old.run (table.Fate.Gone why)) self.old) }
    {
        if is_no_holder(why) {
            self.overhear_at(alloc, landing.link, landing.shield, number)?;
        }
        self.note(Entry::Gone { number, why })
    }

    /// An outsider holds its destination.
    fn come_to_outsider(
        &mut self,
        alloc: Global,
        number: u64,
        outsider: u8,
        landing: &Landing,
    ) -> Result<(), Memory>
        ensures { (post : Post) → post.shield ≡ landing.now.shield
            → OnOk result (self.new ≡ with_run (became self.old.setup number post (link_seen landing.now.link) self.old.run (table.Fate.Outsider (outsider + 32))) self.old) }
    {
        self.overhear_at(alloc, landing.link, landing.shield, number)?;
        self.hold_by_outsider(number, outsider, landing.link)
    }

    /// It is handed to a node, which has not acted yet.
    fn come_to_node(
        &mut self,
        alloc: Global,
        number: u64,
        node: NodeId,
        landing: &Landing,
    ) -> Result<(), Memory>
        ensures { (post : Post) → post.shield ≡ landing.now.shield
            → OnOk result (self.new ≡ with_run (note (Handed number node) (overheard_at self.old.setup post number (link_seen landing.now.link) self.old.run)) self.old) }
    {
        self.overhear_at(alloc, landing.link, landing.shield, number)?;
        self.note(Entry::Handed { number, node })
    }

    /// It is handed to a node.
    fn land_at(
        &mut self,
        alloc: Global,
        number: u64,
        node: NodeId,
        landing: Landing,
    ) -> Result<Arrival, Memory>
        ensures { (post : Post) → IsLanding self.old.setup self.old.run.past post landing → landing.fate ≡ Fate.Node node
            → IfOk result (Lands self.old self.new number post) }
    {
        self.come_to_node(alloc, number, node, &landing)?;
        Ok(Arrival::Handed {
            node,
            shield: landing.shield,
            packet: landing.packet,
        })
    }

    /// What becomes of it.
    fn land(&mut self, alloc: Global, number: u64, landing: Landing) -> Result<Arrival, Memory>
        ensures { (post : Post) → IsLanding self.old.setup self.old.run.past post landing → IfOk result (Lands self.old self.new number post) }
    {
        match landing.fate {
            Fate::Node(node) => self.land_at(alloc, number, node, landing),
            Fate::Outsider(outsider) => {
                self.come_to_outsider(alloc, number, outsider, &landing)?;
                Ok(Arrival::Done)
            }
            Fate::Gone(why) => {
                self.go_nowhere(alloc, number, why, &landing)?;
                Ok(Arrival::Done)
            }
            Fate::Idle => {
                self.note(Entry::Idle)?;
                Ok(Arrival::Done)
            }
        }
    }

    /// What the packet of the pool with this number comes to.
    fn landing(&self, alloc: Global, number: u64) -> Result<Option<Landing>, Memory>
        ensures { IfOk result (IsLandingIn self.now.setup self.now.run.past (in_pool self.now.run.flying self.now.run.posts number)) }
    {
        match self.in_pool(number) {
            Some(post) => {
                let landing = self.landing_of(alloc, post)?;
                Ok(Some(landing))
            }
            None => Ok(None),
        }
    }

    /// Nothing is delivered.
    fn deliver_nothing(&mut self) -> Result<Arrival, Memory>
        ensures { IfOk result (λ a. (a ≡ Arrival.Done) × (self.new ≡ with_run (note Stays self.old.run) self.old)) }
    {
        self.note(Entry::Idle)?;
        Ok(Arrival::Done)
    }

    /// A packet of the pool is delivered, and leaves the pool unless it is kept; one that is not there changes nothing. Where it is
    /// handed to a node, the run is as it is before the node acts.
    pub fn deliver(&mut self, alloc: Global, number: u64, keep: bool) -> Result<Arrival, Memory>
        ensures { IfOk result (Arrives self.old self.new number keep) }
    {
        let landing = self.landing(alloc, number)?;
        self.leave_unless(keep, number);
        match landing {
            Some(landing) => self.land(alloc, number, landing),
            None => self.deliver_nothing(),
        }
    }

    /// A packet is lost.
    #[tactic(auto, unfolding(mip_history::specs::Permitted::lost))]
    pub fn lose(&mut self, number: u64) -> Result<(), Memory>
        ensures { OnOk result (self.new ≡ with_run (lost self.old.run number) self.old) }
    {
        let entry = self.lost_entry(number);
        self.leave(number);
        self.note(entry)
    }

    fn lost_entry(&self, number: u64) -> Entry
        ensures { result ≡ (if slice_index_or self.now.run.flying number false then Lost number else Stays) }
    {
        if self.is_flying(number) {
            Entry::Lost { number }
        } else {
            Entry::Idle
        }
    }

    /// A packet is in the pool.
    fn is_flying(&self, number: u64) -> bool
        ensures { result ≡ slice_index_or self.now.run.flying number false }
    {
        match self.flying.get(number as usize) {
            Some(flag) => *flag,
            None => false,
        }
    }

    /// The lowest packet of the pool.
    pub fn lowest(&self) -> Option<u64>
        ensures { result ≡ lowest_of self.now.run.flying }
    {
        let place = first_flag(&self.flying)?;
        Some(place as u64)
    }
}

/// The place of the first flag that stands.
fn first_flag(flags: &[bool]) -> Option<usize>
    ensures { result ≡ lowest_of flags.now }
{
    for place in 0..flags.len() {
        if flags[place] {
            return Some(place);
        }
    }
    None
}
