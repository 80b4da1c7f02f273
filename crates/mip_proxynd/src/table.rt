ghost use Rattle.std.specs.Prelude.{◌≡◌, ◌==◌, ◌&&◌, ◌∷◌, ◌++◌, ℕ, List, [], Some, false, if◌then◌else◌, option_map, IfOk, OnOk, OnErr};
ghost use Rattle.mip_entries.specs.declared.entry.Entry as entries;
ghost use Rattle.mip_proxynd.specs.Adverts.{layer_of, adverts_heard};
ghost use Rattle.mip_proxynd.specs.Claims.{claim_in};
ghost use Rattle.mip_proxynd.specs.Fields.{is_group};
ghost use Rattle.mip_proxynd.specs.Tables.{Heard, IsTable, kept_at, holder_of};
ghost use Rattle.mip_proxynd.specs.TablesLaws.{kept_after};
ghost use Rattle.mip_proxynd.specs.declared.claim.Claim as claims;

use crate::neighbour::Neighbour;
use crate::neighbour_entry::NeighbourEntry;
use mip_words::{Address, LinkId, Memory};
use std::alloc::Global;
use std::collections::BTreeMap;
use std::marker::Model;

/// The link-layer addresses that were heard in advertisements, by link and address.
#[derive(Drop)]
pub struct Table {
    rows: BTreeMap<(u8, u128), NeighbourEntry>,
}

impl Model for Table {
    ghost use Rattle.mip_proxynd.specs.Tables.{TableRows};

    ghost Value = { TableRows };

    ghost view = { λ t. t.rows.entries };
}

impl Table {
    /// Nothing was heard.
    pub fn new(alloc: Global) -> Result<Table, Memory>
        ensures { IfOk result (λ t. IsTable t []) }
    {
        Ok(Table {
            rows: BTreeMap::new(alloc),
        })
    }

    /// What is kept of an address on a link.
    fn kept(&self, link: LinkId, address: Address) -> Option<NeighbourEntry>
        ensures { result ≡ kept_at self.now link.0 address.0 }
    {
        self.rows.get(&(link.0, address.0)).copied()
    }

    /// Puts what is kept of an address on a link.
    fn put(&mut self, link: LinkId, address: Address, kept: NeighbourEntry) -> Result<(), Memory>
        ensures ok { OnOk result ((l a : ℕ) → kept_at self.new l a ≡ (if link.0 == l && address.0 == a then Some kept else kept_at self.old l a)) }
        ensures err { OnErr result (self.new ≡ self.old) }
    {
        self.rows.insert((link.0, address.0), kept)?;
        Ok(())
    }

    /// Takes what one more advertisement says: it counts where it overrides, or is the first.
    fn keep(&mut self, link: LinkId, address: Address, kept: NeighbourEntry) -> Result<(), Memory>
        ensures ok { OnOk result ((l a : ℕ) → kept_at self.new l a ≡
            (if link.0 == l && address.0 == a then kept_after kept (kept_at self.old l a) else kept_at self.old l a)) }
        ensures err { OnErr result (self.new ≡ self.old) }
    {
        match self.kept(link, address) {
            Some(_) if !kept.over => Ok(()),
            _ => self.put(link, address, kept),
        }
    }

    /// Hears a message on a link. An advertisement without a link-layer address changes nothing, nor does a
    /// solicitation.
    pub fn hear(&mut self, link: LinkId, message: &Neighbour) -> Result<(), Memory>
        ensures ok { OnOk result ((heard : List Heard) → IsTable self.old heard
            → IsTable self.new (heard ++ record { link = link.0; message = message.now } ∷ [])) }
        ensures err { OnErr result (self.new ≡ self.old) }
    {
        match message.kept() {
            Some(kept) => self.keep(link, message.target(), kept),
            None => Ok(()),
        }
    }

    /// The link-layer address of the holder of an address on a link: the one in the last advertisement that overrides, or
    /// in the first one where none does.
    pub fn holder(&self, link: LinkId, address: Address) -> Option<[u8; 6]>
        ensures heard { (heard : List Heard) → IsTable self.now heard → result ≡ holder_of link.0 address.0 heard }
        ensures standing { (h : List entries.Entry) → IsTable self.now (adverts_heard h) → (claim : claims.Claim) → claim_in h address.0 ≡ Some claim
            → is_group address ≡ false → claim.link ≡ link → result ≡ Some (layer_of claim.who) }
    {
        self.layer(link, address)
    }

    fn layer(&self, link: LinkId, address: Address) -> Option<[u8; 6]>
        ensures { result ≡ option_map (λ kept. kept.layer) (kept_at self.now link.0 address.0) }
    {
        match self.kept(link, address) {
            Some(kept) => Some(kept.layer),
            None => None,
        }
    }
}
