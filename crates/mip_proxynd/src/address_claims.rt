ghost use Rattle.std.specs.Prelude.{◌≡◌, List, [], false, OnOk, OnErr};
ghost use Rattle.mip_entries.specs.declared.entry.Entry as entries;
ghost use Rattle.mip_proxynd.specs.Fields.{is_group};
ghost use Rattle.mip_proxynd.specs.Claims.{claim_in, row_of, with_row, rows_after, rows_in};

use crate::claim::Claim;
use crate::fields::is_group;
use mip_entries::Entry;
use mip_words::{Address, Memory};
use std::alloc::Global;
use std::collections::BTreeMap;
use std::marker::Model;

/// The claims that stand behind some entries of a history, by their addresses.
#[derive(Drop)]
pub struct AddressClaims {
    pub(crate) rows: BTreeMap<u128, Option<Claim>>,
}

impl Model for AddressClaims {
    ghost use Rattle.mip_proxynd.specs.Claims.{Rows};

    ghost Value = { Rows };

    ghost view = { λ s. s.rows.entries };
}

impl AddressClaims {
    /// No claim stands.
    pub fn new(alloc: Global) -> AddressClaims
        ensures { result ≡ [] }
    {
        AddressClaims {
            rows: BTreeMap::new(alloc),
        }
    }

    /// Puts what stands of an address from here on. Nobody holds a multicast address.
    fn put(&mut self, address: Address, claim: Option<Claim>) -> Result<(), Memory>
        ensures ok { OnOk result (self.new ≡ with_row self.old address claim) }
        ensures err { OnErr result (self.new ≡ self.old) }
    {
        if is_group(address) {
            return Ok(());
        }
        self.rows.insert(address.0, claim)?;
        Ok(())
    }

    /// Takes one entry more.
    fn note(&mut self, entry: &Entry) -> Result<(), Memory>
        ensures ok { OnOk result (self.new ≡ rows_after self.old entry.now) }
        ensures err { OnErr result (self.new ≡ self.old) }
    {
        match entry {
            Entry::Claimed { who, link, address } => {
                let claim = Claim {
                    link: *link,
                    address: *address,
                    who: *who,
                };
                self.put(*address, Some(claim))
            }
            Entry::Released { address, .. } => self.put(*address, None),
            _ => Ok(()),
        }
    }

    /// Takes the next entries of a history. After want of memory the first of them may have been taken.
    pub fn take(&mut self, entries: &[Entry]) -> Result<(), Memory>
        ensures { OnOk result (self.new ≡ rows_in self.old entries.now) }
    {
        for entry in entries {
            self.note(entry)?;
        }
        Ok(())
    }

    /// The claim of an address that stands, if any.
    pub fn claim(&self, address: Address) -> Option<Claim>
        ensures row { result ≡ row_of self.now address.0 }
        ensures last { (h : List entries.Entry) → self.now ≡ rows_in [] h → is_group address ≡ false → result ≡ claim_in h address.0 }
    {
        self.found(address)
    }

    fn found(&self, address: Address) -> Option<Claim>
        ensures { result ≡ row_of self.now address.0 }
    {
        match self.rows.get(&address.0) {
            Some(claim) => *claim,
            None => None,
        }
    }
}
