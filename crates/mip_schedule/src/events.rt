ghost use Rattle.std.specs.Prelude.{◌≡◌, ◌∷◌, ◌++◌, [], List, length, slice_get, IfOk, OnOk, OnErr};
ghost use Rattle.std.specs.Option.{option_copied};

use crate::event::Event;
use crate::event_queue::EventQueue;
use mip_words::Memory;
use std::alloc::Global;
use std::marker::Model;

/// Events, in order.
#[derive(Drop)]
pub struct Events {
    list: Vec<Event>,
}

impl Model for Events {
    ghost use Rattle.std.specs.Prelude.{List};
    ghost use Rattle.mip_schedule.specs.declared.event.Event.{Event};

    ghost Value = { List Event };

    ghost view = { λ a. a.list.items };
}

impl Events {
    pub fn new(alloc: Global) -> Events
        ensures { result ≡ [] }
    {
        Events {
            list: Vec::new(alloc),
        }
    }

    /// No event yet, and room for this many.
    pub fn with_capacity(alloc: Global, capacity: usize) -> Result<Events, Memory>
        ensures { IfOk result (λ events. events ≡ []) }
    {
        let list = Vec::with_capacity(alloc, capacity)?;
        Ok(Events { list })
    }

    /// Appends an event.
    pub fn push(&mut self, event: Event) -> Result<(), Memory>
        ensures ok { OnOk result (self.new ≡ self.old ++ event ∷ []) }
        ensures err { OnErr result (self.new ≡ self.old) }
    {
        self.list.push(event)?;
        Ok(())
    }

    pub fn len(&self) -> usize
        ensures { result ≡ length self.now }
    {
        self.list.len()
    }

    /// The event at a place from 0; none past the end.
    pub fn at(&self, place: usize) -> Option<&Event>
        ensures { option_copied result ≡ slice_get self.now place }
    {
        self.list.get(place)
    }

    pub fn as_slice(&self) -> &[Event]
        ensures { result.now ≡ self.now }
    {
        self.list.as_slice()
    }

    /// The same events, to be taken one after the other.
    pub fn into_queue(self) -> EventQueue
        ensures { result ≡ self }
    {
        EventQueue::of(self.list)
    }
}
