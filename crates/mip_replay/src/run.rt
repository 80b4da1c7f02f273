//! The run of a schedule.

ghost use Rattle.std.specs.Prelude.{◌≡◌, [], IfOk, OnOk};
ghost use Rattle.mip_history.specs.Setup.{setup_of};
ghost use Rattle.mip_history.specs.Permitted.{permitted, run_of};
ghost use Rattle.mip_schedule.specs.Schedules.{content};
ghost use Rattle.mip_law_origin.specs.Marked.{EachIsMarked};
ghost use Rattle.mip_law_delivery.specs.Reached.{EachReaches};
ghost use Rattle.mip_history.specs.Refused.{RefusalsLeaveTables};
ghost use Rattle.mip_replay.specs.Bindings.{EachIsBound, EachRepeatIsLate};
ghost use Rattle.mip_replay.specs.Homes.{HomesAreSent};
ghost use Rattle.mip_engine.specs.Standing.{IsAt};

use crate::happening::happen;
use mip_engine::Engine;
use mip_entries::History;
use mip_history::{
    accepted_was_handed, held_was_accepted, homes_change_by_updates_or_time, lives_are_restarts,
    moments_rise, refused_packets_leave_the_tables, registered_was_sent, repeats_come_after_rounds,
};
use mip_law_delivery::each_delivery_arrives;
use mip_law_origin::acceptances_are_marked;
use mip_schedule::{Schedule, few, lawful, spelling_read, waits_are_short};
use mip_words::Memory;
use std::alloc::Global;

/// The events of a schedule happen, one after the other. Each finds the engine ready.
fn run(alloc: Global, engine: &mut Engine, schedule: &Schedule) -> Result<(), Memory>
    requires { IsAt engine.old (setup_of (content schedule.now)) (run_of (setup_of (content schedule.now)) []) }
    ensures stands { OnOk result (IsAt engine.new (setup_of (content schedule.now)) (run_of (setup_of (content schedule.now)) schedule.now.events)) }
    ensures kept { OnOk result (engine.new.told ≡ engine.old.told) }
{
    few(schedule);
    lawful(schedule);
    moments_rise();
    lives_are_restarts();
    for event in schedule.events.as_slice() {
        happen(alloc, engine, event)?;
    }
    Ok(())
}

#[tactic(auto, unfolding(mip_history::specs::Permitted::permitted))]
fn run_whole(alloc: Global, schedule: &Schedule) -> Result<History, Memory>
    ensures { IfOk result (λ h. h ≡ permitted (content schedule.now)) }
{
    let mut engine = Engine::open(alloc, schedule)?;
    run(alloc, &mut engine, schedule)?;
    Ok(engine.into_history())
}

/// The history of a schedule: its permitted one.
///
/// At each place of it a node, a correspondent or a mobile in its correspondent part, holds a care-of address only by an update
/// that it accepted in the life that it has there, and that no later one has ended. Each update that is accepted, whatever its mark, had just
/// been handed over, with the verdict Accept on its bytes: authentic under nonces that were valid then, and in sequence after
/// what stood.
/// The same update is accepted again in one life only where the sequences of its home have gone round since then.
///
/// A care-of address is registered at an agent only by an update that the mobile with that home had sent under its shield, in
/// sequence after what was kept. Within an agent's life it changes only by such an update, or by the end of its time.
///
/// A packet that a node drops, or whose update it denies, leaves the tables of that node as they were, at each place and in every
/// other run: the cache of a correspondent, all tables of an agent, and of a mobile all but the moments of its last calls.
///
/// Each accepted update is followed by the mark of its origin. Where that is not `forged`, both tokens had reached
/// whoever made the update, before its first packet was posted.
///
/// Data between two settled ends is sent in one packet. Where nothing of what settled them changes from there on, and that packet
/// and each that descends from it is delivered, the other end hands the data up, with home addresses restored.
pub fn replay(alloc: Global, schedule: &Schedule) -> Result<History, Memory>
    ensures permitted { IfOk result (λ h. h ≡ permitted (content schedule.now)) }
    ensures bound { IfOk result (λ h. EachIsBound (setup_of (content schedule.now)) h) }
    ensures repeats { IfOk result (λ h. EachRepeatIsLate (setup_of (content schedule.now)) h) }
    ensures homes { IfOk result (λ h. HomesAreSent (setup_of (content schedule.now)) h) }
    ensures refused { RefusalsLeaveTables (setup_of (content schedule.now)) }
    ensures marked { IfOk result (λ h. EachIsMarked (setup_of (content schedule.now)) h) }
    ensures delivered { EachReaches (setup_of (content schedule.now)) schedule.now.events }
{
    held_was_accepted();
    accepted_was_handed();
    repeats_come_after_rounds();
    registered_was_sent();
    homes_change_by_updates_or_time();
    refused_packets_leave_the_tables();
    acceptances_are_marked();
    each_delivery_arrives();
    waits_are_short();
    spelling_read(schedule);
    run_whole(alloc, schedule)
}
