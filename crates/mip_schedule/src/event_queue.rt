ghost use Rattle.std.specs.Prelude.{◌≡◌, ◌∷◌, [], MatchOption};

use crate::event::Event;
use std::collections::VecDeque;
use std::marker::Model;

/// The events that are still to come, the next one first. Once half of them were taken, and again each time that half of the rest was,
/// their room is given back.
#[derive(Drop)]
pub struct EventQueue {
    queue: VecDeque<Event>,
}

impl Model for EventQueue {
    ghost use Rattle.std.specs.Prelude.{List};
    ghost use Rattle.mip_schedule.specs.declared.event.Event.{Event};

    ghost Value = { List Event };

    ghost view = { λ q. q.queue.items };
}

impl EventQueue {
    pub(crate) fn of(events: Vec<Event>) -> EventQueue
        ensures { result ≡ events.items }
    {
        EventQueue {
            queue: VecDeque::from_vec(events),
        }
    }

    /// Takes the next event; none where all were taken.
    pub fn pop(&mut self) -> Option<Event>
        ensures { MatchOption result ((self.old ≡ []) × (self.new ≡ [])) (λ event. self.old ≡ event ∷ self.new) }
    {
        let event = self.queue.pop_front();
        self.give_room_back();
        event
    }

    fn give_room_back(&mut self)
        ensures { self.new ≡ self.old }
    {
        if self.queue.len() < self.queue.capacity() / 2 {
            self.queue.shrink_to_fit();
        }
    }
}
