//! Packets are posted, and outsiders hear them.

ghost use Rattle.std.specs.Prelude.{◌≡◌, [], ◌∷◌, ◌++◌, ◌&&◌, if◌then◌else◌, None, Some, IfOk, OnOk, option_map, slice_get};
ghost use Rattle.mip_entries.specs.declared.entry.Entry.TheVariants.{Heard};
ghost use Rattle.mip_history.specs.Runs.{notes};
ghost use Rattle.mip_history.specs.Questions.{hears_in};
ghost use Rattle.mip_history.specs.Posting.{heards, is_other, overheard};
ghost use Rattle.mip_history.specs.Outsiders.{injected};
ghost use Rattle.mip_afresh.specs.Tellings.{with_run};

use crate::packet_bytes::PacketBytes;
use crate::posted::Posted;
use crate::questions::hears;
use crate::telling::Telling;
use mip_entries::Entry;
use mip_words::{Bytes, LinkId, Memory, Shield};
use std::alloc::Global;

/// An outsider is not the one that is left out.
fn is_other(by: Option<u8>, outsider: u8) -> bool
    ensures { result ≡ is_other by outsider }
{
    match by {
        Some(by) => by != outsider,
        None => true,
    }
}

/// One outsider more hears a packet, if it listens.
fn hear_one(
    heard: &mut Vec<Entry>,
    past: &[Entry],
    link: LinkId,
    by: Option<u8>,
    number: u64,
    outsider: u8,
) -> Result<(), Memory>
    ensures { OnOk result (heard.new.items ≡ heard.old.items ++ (if is_other by outsider && hears_in past.now outsider link.0 then Heard number outsider ∷ [] else [])) }
{
    if is_other(by, outsider) && hears(past, outsider, link) {
        heard.push(Entry::Heard { number, outsider })?;
    }
    Ok(())
}

/// What the outsiders hear of a packet on a link, in order of declaration.
fn heard_on(
    alloc: Global,
    past: &[Entry],
    link: LinkId,
    by: Option<u8>,
    number: u64,
    outsiders: u8,
) -> Result<Vec<Entry>, Memory>
    ensures { IfOk result (λ v. v.items ≡ heards (λ o. is_other by o && hears_in past.now o link.0) number outsiders) }
{
    let mut heard = Vec::new(alloc);
    for outsider in 0..outsiders {
        hear_one(&mut heard, past, link, by, number, outsider)?;
    }
    Ok(heard)
}

impl Telling {
    /// How many outsiders there are.
    fn outsiders(&self) -> u8
        ensures { result ≡ self.now.setup.outsiders }
    {
        self.setting.outsiders
    }

    /// Entries are left.
    #[tactic(auto, using(crate::proofs::TellingLaws::told_none, crate::proofs::TellingLaws::told_more))]
    pub fn note_all(&mut self, entries: Vec<Entry>) -> Result<(), Memory>
        ensures { OnOk result (self.new ≡ with_run (notes entries.items self.old.run) self.old) }
    {
        for entry in entries {
            self.note(entry)?;
        }
        Ok(())
    }

    /// A packet is heard on a link by the outsiders that listen there, but for the one that injected it, unless it is shielded.
    pub(crate) fn overhear(
        &mut self,
        alloc: Global,
        link: LinkId,
        shield: Option<Shield>,
        by: Option<u8>,
        number: u64,
    ) -> Result<(), Memory>
        ensures { OnOk result (self.new ≡ with_run (overheard self.old.setup link.0 shield by number self.old.run) self.old) }
    {
        if shield.is_some() {
            return Ok(());
        }
        let outsiders = self.outsiders();
        let heard = heard_on(alloc, self.told().as_slice(), link, by, number, outsiders)?;
        self.note_all(heard)
    }

    /// An outsider posts a packet on a link.
    pub fn inject(
        &mut self,
        alloc: Global,
        outsider: u8,
        link: LinkId,
        packet: PacketBytes<'_>,
    ) -> Result<(), Memory>
        ensures { OnOk result (self.new ≡ with_run (injected self.old.setup self.old.run outsider link.0 packet.entry.bytes.now) self.old) }
    {
        let number = self.next();
        self.note(Entry::Injected {
            number,
            outsider,
            link,
            packet: Bytes::copy(alloc, packet.bytes)?,
        })?;
        self.enter(Posted {
            from: link,
            shield: None,
            packet: Bytes::copy(alloc, packet.bytes)?,
        })?;
        self.overhear(alloc, link, None, Some(outsider), number)
    }

    /// The bytes of a packet that was posted.
    pub fn packet(&self, number: u64) -> Option<PacketBytes<'_>>
        ensures { option_map (λ p. p.bytes.now) result ≡ option_map (λ p. p.packet) (slice_get self.now.run.posts number) }
    {
        match self.posts.get(number as usize) {
            Some(post) => Some(post.bytes()),
            None => None,
        }
    }
}
