//! Packets are posted, and outsiders hear them.

ghost use Rattle.std.specs.Prelude.{◌≡◌, ◌<◌, ◌≤◌, [], ◌∷◌, length, if◌then◌else◌, None, Some, is_some, OnOk};
ghost use Rattle.mip_entries.specs.declared.entry.Entry.TheVariants.{Heard, Sent};
ghost use Rattle.mip_history.specs.Posting.{heards, is_other, overheard, posted};
ghost use Rattle.mip_history.specs.Outsiders.{injected};
ghost use Rattle.mip_engine.specs.Engines.{with_entries, ears_of};
ghost use Rattle.mip_engine.specs.Standing.{Goes};

use crate::engine::Engine;
use mip_entries::Entry;
use mip_words::{Bytes, LinkId, Memory, NodeId, Shield};
use std::alloc::Global;

/// Whether an outsider is not the one that is left out.
fn is_other(except: Option<u8>, outsider: u8) -> bool
    ensures { result ≡ is_other except outsider }
{
    match except {
        Some(by) => by != outsider,
        None => true,
    }
}

impl Engine {
    #[tactic(auto, using(crate::proofs::PostingLaws::with_none))]
    fn hear_one(
        &mut self,
        except: Option<u8>,
        link: LinkId,
        number: u64,
        outsider: u8,
    ) -> Result<(), Memory>
        ensures { OnOk result (self.new ≡ with_entries (if ears_of self.old except link.0 outsider then Heard number outsider ∷ [] else []) self.old) }
    {
        if is_other(except, outsider) && self.hears(outsider, link) {
            return self.note(Entry::Heard { number, outsider });
        }
        Ok(())
    }

    /// Each outsider that listens on a link hears a packet, in order of declaration, but one.
    #[tactic(auto, using(crate::proofs::PostingLaws::with_none, crate::proofs::PostingLaws::heard_more))]
    fn hear(&mut self, except: Option<u8>, link: LinkId, number: u64) -> Result<(), Memory>
        ensures { OnOk result (self.new ≡ with_entries (heards (λ o. ears_of self.old except link.0 o) number self.old.outsiders) self.old) }
    {
        for outsider in 0..self.outsiders() {
            self.hear_one(except, link, number, outsider)?;
        }
        Ok(())
    }

    /// A packet is heard on a link by the outsiders that listen there, but one, unless it is shielded.
    pub fn overhear(
        &mut self,
        shield: Option<Shield>,
        except: Option<u8>,
        link: LinkId,
        number: u64,
    ) -> Result<(), Memory>
        requires { number < length self.old.net.posts }
        ensures { Goes result self.old self.new (λ s run. overheard s link.0 shield except number run) }
    {
        if shield.is_some() {
            return Ok(());
        }
        self.hear(except, link, number)
    }

    /// A node sends a packet from a link.
    pub(crate) fn send(
        &mut self,
        node: NodeId,
        from: LinkId,
        shield: Option<Shield>,
        packet: Bytes,
    ) -> Result<(), Memory>
        requires { 40 ≤ length packet }
        ensures { Goes result self.old self.new
            (λ s run. posted s (record { from = from.0; shield = shield; packet = packet }) None (Sent (length run.posts) node (is_some shield) packet) run) }
    {
        let number = self.post(from, shield, packet.as_slice())?;
        self.note(Entry::Sent {
            number,
            node,
            shielded: shield.is_some(),
            packet,
        })?;
        self.overhear(shield, None, from, number)
    }

    /// An outsider posts a packet on a link.
    pub fn inject(
        &mut self,
        alloc: Global,
        outsider: u8,
        link: LinkId,
        packet: &[u8],
    ) -> Result<(), Memory>
        requires { 40 ≤ length packet.now }
        ensures { Goes result self.old self.new (λ s run. injected s run outsider link.0 packet.now) }
    {
        let number = self.post(link, None, packet)?;
        let packet = Bytes::copy(alloc, packet)?;
        self.note(Entry::Injected {
            number,
            outsider,
            link,
            packet,
        })?;
        self.overhear(None, Some(outsider), link, number)
    }
}
