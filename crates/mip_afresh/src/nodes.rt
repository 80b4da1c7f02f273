//! What a call of a node needs to know of the run, and what is left where a node does nothing.

ghost use Rattle.std.specs.Prelude.{◌≡◌, OnOk, length, option_map, slice_get};
ghost use Rattle.mip_links.specs.Table.{link_of};
ghost use Rattle.mip_entries.specs.declared.entry.Entry.TheVariants.{Idle as Stays};
ghost use Rattle.mip_history.specs.Runs.{note};
ghost use Rattle.mip_history.specs.Knowing.{link_or_first, stands_on};
ghost use Rattle.mip_afresh.specs.Tellings.{with_run, host_seen};

use crate::host::Host;
use crate::links::link_of;
use crate::telling::Telling;
use mip_entries::Entry;
use mip_words::{Address, LinkId, Memory, Moment, NodeId, Prefix};

impl Telling {
    /// What the secrets of nodes are drawn from.
    pub fn seed(&self) -> &[u8; 32]
        ensures { result.now ≡ self.now.setup.seed }
    {
        &self.setting.seed
    }

    /// The moment before the first event.
    pub fn start(&self) -> Moment
        ensures { result.0 ≡ self.now.setup.start }
    {
        self.setting.start
    }

    /// How many bindings a node has for each home.
    pub fn numbers(&self) -> u8
        ensures { result ≡ self.now.setup.numbers }
    {
        self.setting.numbers
    }

    /// A node of the schedule.
    pub fn host(&self, node: NodeId) -> Option<&Host>
        ensures { option_map (λ h. host_seen h.now) result ≡ slice_get self.now.setup.hosts node.0 }
    {
        self.setting.host(node)
    }

    /// How many nodes there are.
    pub fn count(&self) -> u8
        ensures { result ≡ length self.now.setup.hosts }
    {
        self.setting.count()
    }

    /// The prefix of a link.
    pub fn prefix(&self, link: LinkId) -> Option<Prefix>
        ensures { option_map (λ p. p.0) result ≡ slice_get self.now.setup.links link.0 }
    {
        match self.setting.links.get(usize::from(link.0)) {
            Some(prefix) => Some(*prefix),
            None => None,
        }
    }

    /// The link of an address.
    pub fn link_of(&self, address: Address) -> Option<LinkId>
        ensures { option_map (λ l. l.0) result ≡ link_of self.now.setup.links address.0 }
    {
        link_of(self.setting.few_links(), address)
    }

    /// The link on which a mobile with this home stands.
    pub fn stands_on(&self, node: NodeId, home: Address) -> Option<LinkId>
        ensures { option_map (λ l. l.0) result ≡ stands_on self.now.setup self.now.run node.0 home }
    {
        self.spot(node, self.link_of(home))
    }

    /// The link that a node with this address sends from.
    pub fn station(&self, own: Address) -> LinkId
        ensures { result.0 ≡ link_or_first self.now.setup own.0 }
    {
        match self.link_of(own) {
            Some(link) => link,
            None => LinkId(0),
        }
    }

    /// Nothing can be done about what was asked for.
    pub fn idle(&mut self) -> Result<(), Memory>
        ensures { OnOk result (self.new ≡ with_run (note Stays self.old.run) self.old) }
    {
        self.note(Entry::Idle)
    }
}
