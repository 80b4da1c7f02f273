//! Laws of the histories that a replay answers.

ghost use Rattle.std.specs.Prelude.{◌≡◌, ℕ, List, Ok};
ghost use Rattle.mip_schedule.specs.Contents.{Content};
ghost use Rattle.mip_schedule.specs.Reading.{reading};
ghost use Rattle.mip_history.specs.Setup.{setup_of};
ghost use Rattle.mip_history.specs.Permitted.{permitted};
ghost use Rattle.mip_law_origin.specs.Marked.{EachIsMarked};
ghost use Rattle.mip_replay.specs.Bindings.{EachIsBound, EachRepeatIsLate};
ghost use Rattle.mip_replay.specs.Homes.{HomesAreSent};

use mip_history::{
    accepted_was_handed, held_was_accepted, homes_change_by_updates_or_time, registered_was_sent,
    repeats_come_after_rounds,
};
use mip_law_origin::acceptances_are_marked;
use mip_schedule::waits_are_short;

/// At each place of the permitted history of every schedule each care-of address that a node holds has its accepted update, and
/// each accepted update had just been handed over, with that verdict.
pub fn each_is_bound()
    ensures { (c : Content) → EachIsBound (setup_of c) (permitted c) }
{
    held_was_accepted();
    accepted_was_handed();
}

/// In the permitted history of every schedule that is read a node accepts the same update again in one life only where the
/// sequences of its home have gone round since then.
pub fn each_repeat_is_late()
    ensures { (text : List ℕ) (c : Content) → reading text ≡ Ok c → EachRepeatIsLate (setup_of c) (permitted c) }
{
    repeats_come_after_rounds();
    waits_are_short();
}

/// In the permitted history of every schedule the mobile with that home had sent the update of each registered care-of address
/// under its shield; within an agent's life a registered care-of address changes only by such an update, or by the end of
/// its time.
pub fn each_home_is_sent()
    ensures { (c : Content) → HomesAreSent (setup_of c) (permitted c) }
{
    registered_was_sent();
    homes_change_by_updates_or_time();
}

/// In the permitted history of every schedule that is read each accepted update is followed by the mark of its origin, and
/// where that is not `forged`, both tokens had reached whoever made the update.
pub fn each_acceptance_is_marked()
    ensures { (text : List ℕ) (c : Content) → reading text ≡ Ok c → EachIsMarked (setup_of c) (permitted c) }
{
    acceptances_are_marked();
    waits_are_short();
}
