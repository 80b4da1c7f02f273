ghost use Rattle.std.specs.Prelude.{◌≡◌, ◌++◌, ◌∷◌, [], Some, IfOk, IfErr, OnOk, OnErr, slice_get};
ghost use Rattle.std.specs.Option.{option_map};
ghost use Rattle.mip_outside.specs.Wires.{is_sent};

use crate::put::Put;
use crate::put_fault::PutFault;
use crate::wire::Wire;
use mip_ghost_log::GhostLog;
use mip_words::{Bytes, Memory, Shield};
use std::alloc::Global;
use std::marker::Model;

/// A wire that holds what it sent. It sends each packet, or memory runs out.
#[derive(Drop)]
pub struct Outbox {
    alloc: Global,
    sent: Vec<(Option<Shield>, Bytes)>,
    answered: GhostLog<Result<Put, PutFault>>,
}

impl Model for Outbox {
    ghost use Rattle.mip_outside.specs.Wires.{OutboxSeen};

    ghost Value = { OutboxSeen };

    ghost view = { λ o. record { sent = o.sent.items; answered = o.answered.items } };
}

impl Outbox {
    pub fn new(alloc: Global) -> Result<Outbox, Memory>
        ensures { IfOk result (λ outbox. outbox ≡ record { sent = []; answered = [] }) }
    {
        Ok(Outbox {
            alloc,
            sent: Vec::new(alloc),
            answered: GhostLog::new(),
        })
    }

    /// The packet sent at a place, counted from 0, with its shield.
    pub fn sent_at(&self, place: usize) -> Option<(Option<Shield>, &[u8])>
        ensures { option_map (λ sent. (sent.0, sent.1.now)) result ≡ slice_get self.now.sent place }
    {
        let (shield, packet) = self.sent.get(place)?;
        Some((*shield, packet.as_slice()))
    }

    /// Keeps a packet that is put on the wire, behind those before.
    fn keep(&mut self, shield: Option<Shield>, packet: &[u8]) -> Result<Put, PutFault>
        ensures ok { OnOk result (self.new ≡ record self.old { sent = self.old.sent ++ (shield, packet.now) ∷ [] }) }
        ensures sent { IfOk result (λ put. put ≡ Put.Sent) }
        ensures err { OnErr result (self.new ≡ self.old) }
        ensures memory { IfErr result (λ fault. fault ≡ PutFault.Memory) }
    {
        let packet = Bytes::copy(self.alloc, packet)?;
        match self.sent.push((shield, packet)) {
            Ok(()) => Ok(Put::Sent),
            Err(_) => Err(PutFault::Memory),
        }
    }

    /// Forgets what it sent.
    pub fn clear(&mut self)
        ensures { self.new ≡ record self.old { sent = [] } }
    {
        self.sent.clear();
    }
}

impl Wire for Outbox {
    ghost gives = { is_sent };

    ghost out = { λ outbox. Some outbox.sent };

    ghost answered = { λ outbox. outbox.answered };

    ghost faults = { λ _. 0 };

    ghost is_same = { λ _ _. Unit {0} };

    ghost same_self = { λ _. tt };

    ghost same_since = { λ _ _ _ _ _. tt };

    fn put(&mut self, shield: Option<Shield>, packet: &[u8]) -> Result<Put, PutFault> {
        let answer = self.keep(shield, packet);
        self.answered = self.answered.with(&answer);
        answer
    }
}
