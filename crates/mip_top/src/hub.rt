//! A hub, run over a link.

ghost use Rattle.std.specs.Prelude.{◌≡◌, ◌≢◌, ℕ, ◌≤◌, ◌⊎◌, List, Option, length, Some};
ghost use Rattle.mip_outside.specs.Cause.{Rose};
ghost use Rattle.mip_commands.specs.declared.command.Command.TheVariants as commands;
ghost use Rattle.mip_hub.specs.HubConfigs.{content};
ghost use Rattle.mip_top.specs.Obeyed.{IsObeyed, Obeys};
ghost use Rattle.mip_top.specs.Serving.{outside, HubServed};

use mip_frames::Served;
use mip_hub::{HubConfig, read_hub, serve_hub};
use mip_outside::{Clock, Link, Sink, Source};
use mip_replies::{LIMIT, ReadFault, Status, read_input, tell, tell_bad};
use mip_schedule::ScheduleFault;
use std::alloc::Global;

/// Runs a hub for so many turns, by the configuration that the input is.
pub fn run_hub<S: Source, K: Sink, C: Clock, L: Link>(
    alloc: Global,
    turns: u32,
    source: &mut S,
    sink: &mut K,
    clock: &mut C,
    link: &mut L,
) -> Status
    ensures obeyed { (bytes : List ℕ) × IsObeyed (Some (commands.Hub turns)) bytes result.0 (S.left source.old) (S.left source.new)
        (outside (K.held sink.old) (C.ahead clock.old) (L.coming link.old) (L.sent link.old) (L.port link.old) (L.calls link.old))
        (outside (K.held sink.new) (C.ahead clock.new) (L.coming link.new) (L.sent link.new) (L.port link.new) (L.calls link.new)) }
    ensures statuses { (result.0 ≤ 7) × (result.0 ≢ 1) }
    ensures read_fault { result.0 ≡ 3 → Rose (S.faults source.old) (S.faults source.new) }
    ensures read_fault_text { result.0 ≡ 3 → K.held sink.new ≡ K.held sink.old }
    ensures write_fault { result.0 ≡ 4 → Rose (K.faults sink.old) (K.faults sink.new) }
    ensures link_fault { result.0 ≡ 7 → Rose (L.faults link.old) (L.faults link.new) }
    ensures no_fewer { (S.faults source.old ≤ S.faults source.new) × (K.faults sink.old ≤ K.faults sink.new) × (L.faults link.old ≤ L.faults link.new) }
    ensures clock { clock.new ≡ clock.old }
{
    // A hub reads no clock: this names the argument, and does nothing.
    let _ = clock;
    let bytes = match read_input(alloc, source) {
        Ok(bytes) => bytes,
        Err(ReadFault::Failed) => return Status::READ_FAULT,
        Err(ReadFault::Memory) => return Status::MEMORY,
    };
    pass_by_text(alloc, turns, bytes.as_slice(), sink, link)
}

/// Runs a hub by the text of its configuration, or says where that is bad.
fn pass_by_text<K: Sink, L: Link>(
    alloc: Global,
    turns: u32,
    text: &[u8],
    sink: &mut K,
    link: &mut L,
) -> Status
    requires { length text.now ≤ 16777217 }
    ensures obeys { (ahead : Option (List ℕ)) → Obeys (Some (commands.Hub turns)) text.now result.0
        (outside (K.held sink.old) ahead (L.coming link.old) (L.sent link.old) (L.port link.old) (L.calls link.old))
        (outside (K.held sink.new) ahead (L.coming link.new) (L.sent link.new) (L.port link.new) (L.calls link.new)) }
    ensures statuses { (result.0 ≤ 7) × (result.0 ≢ 1) × (result.0 ≢ 3) }
    ensures write_fault { result.0 ≡ 4 → Rose (K.faults sink.old) (K.faults sink.new) }
    ensures link_fault { result.0 ≡ 7 → Rose (L.faults link.old) (L.faults link.new) }
    ensures no_fewer { (K.faults sink.old ≤ K.faults sink.new) × (L.faults link.old ≤ L.faults link.new) }
{
    if text.len() > LIMIT {
        return tell(sink, b"long\n", Status::TOO_LONG);
    }
    match read_hub(alloc, text) {
        Ok(config) => pass_by_config(alloc, turns, &config, sink, link),
        Err(ScheduleFault::Bad { line, why }) => tell_bad(alloc, sink, line, why),
        Err(ScheduleFault::Memory) => Status::MEMORY,
    }
}

/// Runs a configured hub.
fn pass_by_config<K: Sink, L: Link>(
    alloc: Global,
    turns: u32,
    config: &HubConfig,
    sink: &mut K,
    link: &mut L,
) -> Status
    ensures served { (ahead : Option (List ℕ)) → HubServed (content config.now) turns result.0
        (outside (K.held sink.old) ahead (L.coming link.old) (L.sent link.old) (L.port link.old) (L.calls link.old))
        (outside (K.held sink.new) ahead (L.coming link.new) (L.sent link.new) (L.port link.new) (L.calls link.new)) }
    ensures statuses { (result.0 ≡ 0) ⊎ ((result.0 ≡ 4) ⊎ ((result.0 ≡ 5) ⊎ (result.0 ≡ 7))) }
    ensures write_fault { result.0 ≡ 4 → Rose (K.faults sink.old) (K.faults sink.new) }
    ensures link_fault { result.0 ≡ 7 → Rose (L.faults link.old) (L.faults link.new) }
    ensures no_fewer { (K.faults sink.old ≤ K.faults sink.new) × (L.faults link.old ≤ L.faults link.new) }
{
    match serve_hub(alloc, config, link, sink, turns) {
        Served::Done => Status::OK,
        Served::LinkFault => Status::LINK_FAULT,
        Served::WriteFault => Status::WRITE_FAULT,
        Served::Memory => Status::MEMORY,
    }
}
