ghost use Rattle.std.specs.Prelude.{◌≡◌, [], ◌∷◌, ◌++◌, None, Some, IfOk, IfErr, OnOk, OnErr, slice_get};
ghost use Rattle.std.specs.Option.{option_map};
ghost use Rattle.mip_outside.specs.Datagrams.{Traffic};
ghost use Rattle.mip_outside.specs.LinkCalls.{called};

use super::copying::copy_front;
use crate::asked::Asked;
use crate::failed::Failed;
use crate::link::Link;
use crate::link_call::LinkCall;
use crate::put_fault::PutFault;
use mip_ghost_log::GhostLog;
use mip_words::{Bytes, Memory};
use std::alloc::Global;
use std::collections::VecDeque;
use std::marker::Model;

/// A link that holds what was sent and what is to come. It never fails.
#[derive(Drop)]
pub struct SureLink {
    alloc: Global,
    sent: Vec<(u16, Bytes)>,
    coming: VecDeque<Option<Bytes>>,
    port: Option<u16>,
    calls: GhostLog<LinkCall>,
}

impl Model for SureLink {
    ghost Value = { Traffic };

    ghost view = { λ s. record { sent = s.sent.items; coming = s.coming.items; port = s.port; calls = s.calls.items } };
}

impl SureLink {
    pub fn new(alloc: Global) -> Result<SureLink, Memory>
        ensures { IfOk result (λ link. link ≡ record { sent = []; coming = []; port = None; calls = [] }) }
    {
        Ok(SureLink {
            alloc,
            sent: Vec::new(alloc),
            coming: VecDeque::new(alloc),
            port: None,
            calls: GhostLog::new(),
        })
    }

    /// Lets a datagram come after all others, or a gap.
    pub fn add(&mut self, item: Option<&[u8]>) -> Result<(), Memory>
        ensures ok { OnOk result (self.new ≡ record self.old { coming = self.old.coming ++ option_map (λ datagram. datagram.now) item.entry ∷ [] }) }
        ensures err { OnErr result (self.new ≡ self.old) }
    {
        let item = match item {
            Some(datagram) => Some(Bytes::copy(self.alloc, datagram)?),
            None => None,
        };
        self.coming.push_back(item)?;
        Ok(())
    }

    /// Tells a call and its answer, which a form around this one gave.
    pub fn tell(&mut self, asked: Asked, fault: Option<PutFault>)
        ensures { self.new ≡ record self.old { calls = self.old.calls ++ called asked fault ∷ [] } }
    {
        self.calls = self.calls.with(&LinkCall { asked, fault });
    }

    /// Keeps a datagram that is sent, behind those before.
    fn keep(&mut self, to: u16, datagram: &[u8]) -> Result<(), PutFault>
        ensures ok { OnOk result (self.new ≡ record self.old { sent = self.old.sent ++ (to, datagram.now) ∷ [] }) }
        ensures err { OnErr result (self.new ≡ self.old) }
        ensures memory { IfErr result (λ fault. fault ≡ PutFault.Memory) }
    {
        let datagram = Bytes::copy(self.alloc, datagram)?;
        match self.sent.push((to, datagram)) {
            Ok(()) => Ok(()),
            Err(_) => Err(PutFault::Memory),
        }
    }

    /// The datagram sent at a place, counted from 0, and the port that it was sent to.
    pub fn sent_at(&self, place: usize) -> Option<(u16, &[u8])>
        ensures { option_map (λ sent. (sent.0, sent.1.now)) result ≡ slice_get self.now.sent place }
    {
        let (to, datagram) = self.sent.get(place)?;
        Some((*to, datagram.as_slice()))
    }
}

impl Link for SureLink {
    ghost sent = { λ link. Some link.sent };

    ghost coming = { λ link. Some link.coming };

    ghost port = { λ link. Some link.port };

    ghost calls = { λ link. link.calls };

    ghost faults = { λ _. 0 };

    fn listen_on(&mut self, to: u16) -> Result<(), Failed> {
        self.tell(Asked::Listen, None);
        self.port = Some(to);
        Ok(())
    }

    fn send(&mut self, to: u16, datagram: &[u8]) -> Result<(), PutFault> {
        let answer = self.keep(to, datagram);
        self.tell(Asked::Send, answer.err());
        answer
    }

    fn receive(&mut self, into: &mut [u8], _wait_ms: u64) -> Result<Option<usize>, Failed> {
        self.tell(Asked::Receive, None);
        match self.coming.pop_front() {
            Some(Some(datagram)) => Ok(Some(copy_front(into, datagram.as_slice()))),
            Some(None) | None => Ok(None),
        }
    }
}
