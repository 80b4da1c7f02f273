//! A hub is run over a link, for so many turns.

ghost use Rattle.std.specs.Prelude.{◌≡◌, ◌≤◌, List, drop, Err, OnOk, IsErrOf, Some};
ghost use Rattle.std.specs.Option.{option_map};
ghost use Rattle.mip_frames.specs.declared.served.Served.TheVariants as ends;
ghost use Rattle.mip_outside.specs.Cause.{Rose};
ghost use Rattle.mip_hub.specs.Calls.{link_state};
ghost use Rattle.mip_hub.specs.HubConfigs.{content};
ghost use Rattle.mip_hub.specs.Served.{IsSeen, Saw, Ran, outside};
ghost use Rattle.mip_hub.specs.ServedLaws.{Tells};
ghost use Rattle.mip_hub.specs.Turns.{Seen, told_calls, turn_done};

use crate::hub::Hub;
use crate::hub_config::HubConfig;
use crate::hub_line::HubLine;
use crate::turning::turn;
use mip_frames::Served;
use mip_outside::{Link, PutFault, Sink};
use mip_printing::write_text;
use std::alloc::Global;

/// Does a turn, and gives its text at the end.
fn turn_told<L: Link, K: Sink>(
    hub: &mut Hub,
    alloc: Global,
    link: &mut L,
    sink: &mut K,
    lines: &[HubLine],
    number: u32,
) -> Result<(), Served>
    ensures seen { (seen : Seen) × IsSeen (L.coming link.old) seen
        × Tells (told_calls lines.now number seen hub.old) result (outside (link_state (L.sent link.old) (L.calls link.old)) (K.held sink.old)) (outside (link_state (L.sent link.new) (L.calls link.new)) (K.held sink.new))
        × OnOk result (hub.new ≡ turn_done lines.now number seen hub.old) }
    ensures coming { OnOk result (L.coming link.new ≡ option_map (drop 1) (L.coming link.old)) }
    ensures port { L.port link.new ≡ L.port link.old }
    ensures never { IsErrOf result Served.Done → ⊥ }
    ensures no_fewer { (L.faults link.old ≤ L.faults link.new) × (K.faults sink.old ≤ K.faults sink.new) }
    ensures link_cause { IsErrOf result Served.LinkFault → Rose (L.faults link.old) (L.faults link.new) }
    ensures write_cause { IsErrOf result Served.WriteFault → Rose (K.faults sink.old) (K.faults sink.new) }
{
    match turn(hub, alloc, link, lines, number) {
        Ok(()) => {}
        Err(PutFault::Failed) => return Err(Served::LinkFault),
        Err(PutFault::Memory) => return Err(Served::Memory),
    }
    match write_text(sink, hub.text.as_slice()) {
        Ok(()) => Ok(()),
        Err(PutFault::Failed) => Err(Served::WriteFault),
        Err(PutFault::Memory) => Err(Served::Memory),
    }
}

/// Runs a hub for so many turns, counted from 1: it listens on its port, and in each turn does the lines of the turn, waits for a
/// datagram of at most 4,096 bytes for 20 ms, passes it on, and gives the text of the turn to the sink.
#[tactic(auto, using(mip_outside::proofs::Known::Rose_since))]
pub fn serve_hub<L: Link, K: Sink>(
    alloc: Global,
    config: &HubConfig,
    link: &mut L,
    sink: &mut K,
    turns: u32,
) -> Served
    ensures run { (seen : List Seen) × Saw (L.coming link.old) seen
        × Ran (content config.now) turns seen result (outside (link_state (L.sent link.old) (L.calls link.old)) (K.held sink.old)) (outside (link_state (L.sent link.new) (L.calls link.new)) (K.held sink.new)) }
    ensures coming { result ≡ ends.Done → L.coming link.new ≡ option_map (drop turns) (L.coming link.old) }
    ensures port { result ≡ ends.Done → L.port link.new ≡ option_map (λ _. Some config.now.port) (L.port link.old) }
    ensures no_fewer { (L.faults link.old ≤ L.faults link.new) × (K.faults sink.old ≤ K.faults sink.new) }
    ensures link_cause { result ≡ ends.LinkFault → Rose (L.faults link.old) (L.faults link.new) }
    ensures write_cause { result ≡ ends.WriteFault → Rose (K.faults sink.old) (K.faults sink.new) }
{
    if link.listen_on(config.port).is_err() {
        return Served::LinkFault;
    }
    let mut hub = Hub::new(alloc);
    for before in 0..turns {
        match turn_told(
            &mut hub,
            alloc,
            link,
            sink,
            config.lines.as_slice(),
            before + 1,
        ) {
            Ok(()) => {}
            Err(end) => return end,
        }
    }
    Served::Done
}
