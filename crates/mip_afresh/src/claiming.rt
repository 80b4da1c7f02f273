//! Addresses are claimed and given up.

ghost use Rattle.std.specs.Prelude.{◌≡◌, ◌<◌, ◌≤◌, ◌^◌, OnOk, option_map, None};
ghost use Rattle.mip_links.specs.Nets.{is_held_by};
ghost use Rattle.mip_history.specs.Claims.{claim_entry, claims};
ghost use Rattle.mip_history.specs.Homes.{passes_to, left_on, gives_up};
ghost use Rattle.mip_afresh.specs.Tellings.{with_run};

use crate::links::link_of;
use crate::telling::Telling;
use mip_entries::Entry;
use mip_words::{Address, LinkId, Memory};

/// The claim of somebody that asks for an address, by who holds it.
fn claim_entry(who: u8, address: Address, link: LinkId, holder: Option<u8>) -> Entry
    ensures { result ≡ claim_entry who address link.0 holder }
{
    match holder {
        Some(holder) if holder != who => Entry::Taken {
            who,
            link,
            address,
            holder,
        },
        _ => Entry::Claimed { who, link, address },
    }
}

/// The holder is this one.
fn is_held_by(holder: Option<u8>, who: u8) -> bool
    ensures { result ≡ is_held_by holder who }
{
    match holder {
        Some(other) => other == who,
        None => false,
    }
}

impl Telling {
    /// Somebody claims an address, and has it unless somebody else does: a node by its number, an outsider by 32 more.
    pub fn claim(&mut self, who: u8, address: Address) -> Result<(), Memory>
        ensures { OnOk result (self.new ≡ with_run (claims self.old.setup who address self.old.run) self.old) }
    {
        match link_of(self.setting.few_links(), address) {
            Some(link) => {
                let holder = self.holder(address);
                self.note(claim_entry(who, address, link, holder))
            }
            None => self.note(Entry::Idle),
        }
    }

    /// An address passes to the mobile at home whose home address it is, if there is another one.
    fn pass_to(
        &mut self,
        who: u8,
        address: Address,
        link: LinkId,
        resident: Option<u8>,
    ) -> Result<(), Memory>
        ensures { OnOk result (self.new ≡ with_run (passes_to who address link.0 self.old.run resident) self.old) }
    {
        match resident {
            Some(node) if node != who => self.note(Entry::Claimed {
                who: node,
                link,
                address,
            }),
            _ => Ok(()),
        }
    }

    /// An address is given up on its link.
    #[tactic(auto, using(crate::proofs::ResidentLaws::resident_before))]
    fn give_up_on(&mut self, who: u8, address: Address, link: LinkId) -> Result<(), Memory>
        ensures { OnOk result (self.new ≡ with_run (left_on self.old.setup who address link.0 self.old.run) self.old) }
    {
        let resident = self.resident(address)?;
        self.note(Entry::Released { who, link, address })?;
        self.pass_to(who, address, link, resident)
    }

    /// Somebody gives up an address on its link, if it has it. A home address passes to its mobile where that is at home.
    pub fn give_up(&mut self, who: u8, address: Address) -> Result<(), Memory>
        ensures { OnOk result (self.new ≡ with_run (gives_up self.old.setup who address self.old.run) self.old) }
    {
        match link_of(self.setting.few_links(), address) {
            Some(link) if is_held_by(self.holder(address), who) => {
                self.give_up_on(who, address, link)
            }
            _ => self.note(Entry::Idle),
        }
    }
}
