ghost use Rattle.std.specs.Prelude.{◌≡◌, [], ◌∷◌, ◌++◌, None, Some, IfOk, OnOk, OnErr, slice_get};
ghost use Rattle.std.specs.Option.{option_map};
ghost use Rattle.mip_frames.specs.Failing.{FailingLink};

use crate::calls::Calls;
use crate::faults::Faults;
use mip_outside::{Asked, Failed, Link, PutFault, SureLink};
use mip_words::Memory;
use std::alloc::Global;
use std::marker::Model;

/// A link that holds what was sent and what is to come, and fails at chosen calls.
#[derive(Drop)]
pub struct ListLink {
    link: SureLink,
    listens: Calls,
    sends: Calls,
    receives: Calls,
    faults: Faults,
}

impl Model for ListLink {
    ghost Value = { FailingLink };

    ghost view = { λ l. record {
      traffic = l.link;
      faults = l.faults.0;
      listens = l.listens;
      sends = l.sends;
      receives = l.receives;
    } };
}

impl ListLink {
    /// The numbers, from 1, are those of the calls of `listen_on`, of `send` and of `receive` that are to fail.
    pub fn new(
        alloc: Global,
        listens: &[u64],
        sends: &[u64],
        receives: &[u64],
    ) -> Result<ListLink, Memory>
        ensures { IfOk result (λ link. link ≡ record {
          traffic = record { sent = []; coming = []; port = None; calls = [] };
          faults = 0;
          listens = record { made = 0; fails = listens.now };
          sends = record { made = 0; fails = sends.now };
          receives = record { made = 0; fails = receives.now };
        }) }
    {
        Ok(ListLink {
            link: SureLink::new(alloc)?,
            listens: Calls::new(alloc, listens)?,
            sends: Calls::new(alloc, sends)?,
            receives: Calls::new(alloc, receives)?,
            faults: Faults(0),
        })
    }

    /// Lets a datagram come after all others, or a gap.
    pub fn add(&mut self, item: Option<&[u8]>) -> Result<(), Memory>
        ensures ok { OnOk result (self.new ≡ record self.old {
          traffic =
              record self.old.traffic { coming = self.old.traffic.coming ++ option_map (λ datagram. datagram.now) item.entry ∷ [] };
        }) }
        ensures err { OnErr result (self.new ≡ self.old) }
    {
        self.link.add(item)
    }

    /// The datagram sent at a place, counted from 0, and the port that it was sent to.
    pub fn sent_at(&self, place: usize) -> Option<(u16, &[u8])>
        ensures { option_map (λ sent. (sent.0, sent.1.now)) result ≡ slice_get self.now.traffic.sent place }
    {
        self.link.sent_at(place)
    }
}

impl Link for ListLink {
    ghost sent = { λ link. Some link.traffic.sent };

    ghost coming = { λ link. Some link.traffic.coming };

    ghost port = { λ link. Some link.traffic.port };

    ghost calls = { λ link. link.traffic.calls };

    ghost faults = { λ link. link.faults };

    fn listen_on(&mut self, to: u16) -> Result<(), Failed> {
        if self.listens.next_fails() {
            self.link.tell(Asked::Listen, Some(PutFault::Failed));
            return Err(self.faults.raise());
        }
        self.link.listen_on(to)
    }

    fn send(&mut self, to: u16, datagram: &[u8]) -> Result<(), PutFault> {
        if self.sends.next_fails() {
            self.link.tell(Asked::Send, Some(PutFault::Failed));
            self.faults.raise();
            return Err(PutFault::Failed);
        }
        self.link.send(to, datagram)
    }

    fn receive(&mut self, into: &mut [u8], wait_ms: u64) -> Result<Option<usize>, Failed> {
        if self.receives.next_fails() {
            self.link.tell(Asked::Receive, Some(PutFault::Failed));
            return Err(self.faults.raise());
        }
        self.link.receive(into, wait_ms)
    }
}
