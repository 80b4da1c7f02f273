//! Questions that are asked of the entries so far.

ghost use Rattle.std.specs.Prelude.{◌≡◌, ◌<◌, ◌≤◌, ◌+◌, ◌^◌, ℕ, suc, if◌then◌else◌, option_map, length, drop, fold};
ghost use Rattle.mip_words.specs.Last.{or_else};
ghost use Rattle.mip_history.specs.Questions.{moment_says, moment_in, holder_says, holder_in, claims, declared_in, listen_says, hears_in, restarts, life_in, moved_says, spot_in};
ghost use Rattle.mip_history.specs.Knowing.{now_in};

use crate::telling::Telling;
use mip_entries::Entry;
use mip_words::{Address, LinkId, Moment, NodeId};

/// An outsider listens on a link from an entry on, or does so no more; none where the entry says nothing of it.
fn listening_said(entry: &Entry, outsider: u8, link: LinkId) -> Option<bool>
    ensures { result ≡ listen_says outsider link.0 entry.now }
{
    match entry {
        Entry::Listening {
            outsider: o,
            link: l,
        } if *o == outsider && l.0 == link.0 => Some(true),
        Entry::Deafened {
            outsider: o,
            link: l,
        } if *o == outsider && l.0 == link.0 => Some(false),
        _ => None,
    }
}

/// An outsider listens on a link.
pub fn hears(past: &[Entry], outsider: u8, link: LinkId) -> bool
    ensures { result ≡ hears_in past.now outsider link.0 }
{
    let mut hears = false;
    for entry in past {
        match listening_said(entry, outsider, link) {
            Some(said) => hears = said,
            None => (),
        }
    }
    hears
}

/// An entry begins a life of a node.
fn is_restart(entry: &Entry, node: NodeId) -> bool
    ensures { (count : ℕ) → restarts node.0 count entry.now ≡ (if result then suc count else count) }
{
    match entry {
        Entry::Restarted { node: n } => n.0 == node.0,
        _ => false,
    }
}

/// How often a node was restarted.
fn life(past: &[Entry], node: NodeId) -> usize
    ensures { result ≡ life_in past.now node.0 }
{
    let mut life = 0;
    for entry in past {
        if is_restart(entry, node) {
            life += 1;
        }
    }
    life
}

/// The moment from an entry on.
pub(crate) fn moment_said(entry: &Entry) -> Option<Moment>
    ensures { option_map (λ m. m.0) result ≡ moment_says entry.now }
{
    match entry {
        Entry::At { moment } => Some(*moment),
        _ => None,
    }
}

/// The moment behind entries that began at a moment.
pub(crate) fn moment(past: &[Entry], start: Moment) -> Moment
    ensures { result.0 ≡ moment_in start.0 past.now }
{
    let mut moment = start;
    for entry in past {
        match moment_said(entry) {
            Some(said) => moment = said,
            None => (),
        }
    }
    moment
}

/// Who holds an address from an entry on, or that nobody does; none where the entry says nothing of it.
fn holder_said(entry: &Entry, address: Address) -> Option<Option<u8>>
    ensures { result ≡ holder_says address.0 entry.now }
{
    match entry {
        Entry::Claimed {
            who,
            address: claimed,
            ..
        } if claimed.0 == address.0 => Some(Some(*who)),
        Entry::Released {
            address: released,
            ..
        } if released.0 == address.0 => Some(None),
        _ => None,
    }
}

/// Who holds an address: who made the last claim of it that was not released.
fn holder(past: &[Entry], address: Address) -> Option<u8>
    ensures { result ≡ holder_in past.now address.0 }
{
    let mut holder = None;
    for entry in past {
        match holder_said(entry, address) {
            Some(said) => holder = said,
            None => (),
        }
    }
    holder
}

/// The link on which a mobile stands from an entry on, or that it stands on none; none where the entry says nothing of it.
fn moved_said(entry: &Entry, node: NodeId) -> Option<Option<LinkId>>
    ensures { option_map (option_map (λ l. l.0)) result ≡ moved_says node.0 entry.now }
{
    match entry {
        Entry::Moved { node: n, link } if n.0 == node.0 => Some(*link),
        _ => None,
    }
}

/// The link on which a mobile stands, or none: that of its last move, and before the first the one of its home.
fn spot(past: &[Entry], node: NodeId, home: Option<LinkId>) -> Option<LinkId>
    ensures { option_map (λ l. l.0) result ≡ spot_in (option_map (λ l. l.0) home) past.now node.0 }
{
    let mut spot = home;
    for entry in past {
        match moved_said(entry, node) {
            Some(said) => spot = said,
            None => (),
        }
    }
    spot
}

/// The address that an entry claims for somebody.
fn claimed_for(entry: &Entry, who: u8) -> Option<Address>
    ensures { result ≡ claims who entry.now }
{
    match entry {
        Entry::Claimed {
            who: by,
            address,
            ..
        } if *by == who => Some(*address),
        _ => None,
    }
}

/// The first of two addresses that is there.
fn either(first: Option<Address>, second: Option<Address>) -> Option<Address>
    ensures { result ≡ or_else first second }
{
    match first {
        Some(address) => Some(address),
        None => second,
    }
}

/// The address that somebody claimed first.
pub(crate) fn declared(past: &[Entry], who: u8) -> Option<Address>
    ensures { result ≡ declared_in past.now who }
{
    let mut first = None;
    for entry in past {
        first = either(first, claimed_for(entry, who));
    }
    first
}

impl Telling {
    /// The moment.
    pub fn now(&self) -> Moment
        ensures { result.0 ≡ now_in self.now.setup self.now.run }
    {
        self.moment
    }

    /// Who holds an address: a node's number, or 32 plus an outsider's.
    #[tactic(auto, using(crate::proofs::Told::holder_told))]
    pub fn holder(&self, address: Address) -> Option<u8>
        ensures { result ≡ holder_in self.now.run.past address.0 }
    {
        holder(self.past.telling(), address)
    }

    /// The address that somebody claimed first.
    #[tactic(auto, using(crate::proofs::Told::declared_told))]
    pub fn declared(&self, who: u8) -> Option<Address>
        ensures { result ≡ declared_in self.now.run.past who }
    {
        declared(self.past.telling(), who)
    }

    /// An outsider listens on a link.
    #[tactic(auto, using(crate::proofs::Told::hears_told))]
    pub fn hears(&self, outsider: u8, link: LinkId) -> bool
        ensures { result ≡ hears_in self.now.run.past outsider link.0 }
    {
        hears(self.past.telling(), outsider, link)
    }

    /// How often a node was restarted.
    #[tactic(auto, using(crate::proofs::Told::life_told))]
    pub fn life(&self, node: NodeId) -> u64
        ensures { result ≡ life_in self.now.run.past node.0 }
    {
        life(self.past.telling(), node) as u64
    }

    /// The link on which a mobile stands whose home is on this link: that of its last move, or before the first the one of its home.
    #[tactic(auto, using(crate::proofs::Told::spot_told))]
    pub(crate) fn spot(&self, node: NodeId, home: Option<LinkId>) -> Option<LinkId>
        ensures { option_map (λ l. l.0) result ≡ spot_in (option_map (λ l. l.0) home) self.now.run.past node.0 }
    {
        spot(self.past.telling(), node, home)
    }
}
