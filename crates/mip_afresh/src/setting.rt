ghost use Rattle.std.specs.Prelude.{◌≡◌, length, map, option_map, slice_get};
ghost use Rattle.mip_afresh.specs.Tellings.{host_seen};

use crate::few_hosts::FewHosts;
use crate::few_links::FewLinks;
use crate::host::Host;
use mip_words::{Moment, NodeId, Prefix};
use std::marker::Model;

/// What a schedule of correspondents and outsiders declares: at most 32 links, 32 nodes and 8 outsiders.
#[derive(Drop)]
pub struct Setting {
    pub seed: [u8; 32],
    /// The moment before the first event.
    pub start: Moment,
    /// The prefix of each link.
    pub links: Vec<Prefix>,
    /// The nodes, in order of declaration.
    pub hosts: Vec<Host>,
    /// How many outsiders there are.
    pub outsiders: u8,
    /// How many bindings a node has for each home.
    pub numbers: u8,
}

impl Model for Setting {
    ghost use Rattle.std.specs.Prelude.{◌≤◌, length, map};
    ghost use Rattle.mip_history.specs.Setup.{Setup};
    ghost use Rattle.mip_afresh.specs.Tellings.{host_seen};

    ghost Value = { Setup };

    ghost view = { λ s. record {
      seed = s.seed;
      start = s.start.0;
      links = map (λ p. p.0) s.links.items;
      hosts = map host_seen s.hosts.items;
      outsiders = s.outsiders;
      numbers = s.numbers;
    } };

    ghost invariant = { λ s. (length s.links.items ≤ 32) × (length s.hosts.items ≤ 32) };
}

impl Setting {
    /// The prefix of each link.
    pub(crate) fn few_links(&self) -> FewLinks<'_>
        ensures { map (λ p. p.0) result.prefixes.now ≡ self.now.links }
    {
        FewLinks {
            prefixes: self.links.as_slice(),
        }
    }

    /// The nodes, in order of declaration.
    pub(crate) fn few_hosts(&self) -> FewHosts<'_>
        ensures { map host_seen result.list.now ≡ self.now.hosts }
    {
        FewHosts {
            list: self.hosts.as_slice(),
        }
    }

    /// How many nodes there are.
    pub(crate) fn count(&self) -> u8
        ensures { result ≡ length self.now.hosts }
    {
        self.hosts.len() as u8
    }

    /// A node.
    pub(crate) fn host(&self, node: NodeId) -> Option<&Host>
        ensures { option_map (λ h. host_seen h.now) result ≡ slice_get self.now.hosts node.0 }
    {
        self.hosts.get(usize::from(node.0))
    }
}
