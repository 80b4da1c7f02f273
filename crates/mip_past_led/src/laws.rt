//! The law, the contract of a function that does nothing.

ghost use Rattle.std.specs.Prelude.{ℕ, List, length};
ghost use Rattle.mip_schedule.specs.declared.event.Event.{Event};
ghost use Rattle.mip_history.specs.Setup.{Setup};
ghost use Rattle.mip_past_led.specs.Whole.{whole_before, AreWhole};

/// Of the events that lie wholly before a place every entry stands before it, and of one event more not every entry does.
pub fn events_before_a_place_are_whole()
    ensures { (s : Setup) (events : List Event) (place : ℕ) → AreWhole s events place (length events) (whole_before s events place) }
{}
