//! One node, run over a link.

ghost use Rattle.std.specs.Prelude.{◌≡◌, ◌≢◌, ℕ, ◌≤◌, ◌⊎◌, List, length, Some};
ghost use Rattle.mip_outside.specs.Cause.{Rose};
ghost use Rattle.mip_commands.specs.declared.command.Command.TheVariants as commands;
ghost use Rattle.mip_config.specs.Configs.{content};
ghost use Rattle.mip_top.specs.Obeyed.{IsObeyed, Obeys};
ghost use Rattle.mip_top.specs.Serving.{outside, NodeServed};

use mip_config::{Config, read_config};
use mip_frames::Served;
use mip_node::serve;
use mip_outside::{Clock, Link, Sink, Source};
use mip_replies::{LIMIT, ReadFault, Status, read_input, tell, tell_bad};
use mip_schedule::ScheduleFault;
use std::alloc::Global;

/// Runs a node for so many turns, by the configuration that the input is.
pub fn run_node<S: Source, K: Sink, C: Clock, L: Link>(
    alloc: Global,
    turns: u32,
    source: &mut S,
    sink: &mut K,
    clock: &mut C,
    link: &mut L,
) -> Status
    ensures obeyed { (bytes : List ℕ) × IsObeyed (Some (commands.Node turns)) bytes result.0 (S.left source.old) (S.left source.new)
        (outside (K.held sink.old) (C.ahead clock.old) (L.coming link.old) (L.sent link.old) (L.port link.old) (L.calls link.old))
        (outside (K.held sink.new) (C.ahead clock.new) (L.coming link.new) (L.sent link.new) (L.port link.new) (L.calls link.new)) }
    ensures statuses { (result.0 ≤ 7) × (result.0 ≢ 1) }
    ensures read_fault { result.0 ≡ 3 → Rose (S.faults source.old) (S.faults source.new) }
    ensures read_fault_text { result.0 ≡ 3 → K.held sink.new ≡ K.held sink.old }
    ensures write_fault { result.0 ≡ 4 → Rose (K.faults sink.old) (K.faults sink.new) }
    ensures link_fault { result.0 ≡ 7 → Rose (L.faults link.old) (L.faults link.new) }
    ensures no_fewer { (S.faults source.old ≤ S.faults source.new) × (K.faults sink.old ≤ K.faults sink.new) × (L.faults link.old ≤ L.faults link.new) }
{
    let bytes = match read_input(alloc, source) {
        Ok(bytes) => bytes,
        Err(ReadFault::Failed) => return Status::READ_FAULT,
        Err(ReadFault::Memory) => return Status::MEMORY,
    };
    serve_text(alloc, turns, bytes.as_slice(), sink, clock, link)
}

/// Runs a node by the text of its configuration, or says where that is bad.
fn serve_text<K: Sink, C: Clock, L: Link>(
    alloc: Global,
    turns: u32,
    text: &[u8],
    sink: &mut K,
    clock: &mut C,
    link: &mut L,
) -> Status
    requires { length text.now ≤ 16777217 }
    ensures obeys { Obeys (Some (commands.Node turns)) text.now result.0
        (outside (K.held sink.old) (C.ahead clock.old) (L.coming link.old) (L.sent link.old) (L.port link.old) (L.calls link.old))
        (outside (K.held sink.new) (C.ahead clock.new) (L.coming link.new) (L.sent link.new) (L.port link.new) (L.calls link.new)) }
    ensures statuses { (result.0 ≤ 7) × (result.0 ≢ 1) × (result.0 ≢ 3) }
    ensures write_fault { result.0 ≡ 4 → Rose (K.faults sink.old) (K.faults sink.new) }
    ensures link_fault { result.0 ≡ 7 → Rose (L.faults link.old) (L.faults link.new) }
    ensures no_fewer { (K.faults sink.old ≤ K.faults sink.new) × (L.faults link.old ≤ L.faults link.new) }
{
    if text.len() > LIMIT {
        return tell(sink, b"long\n", Status::TOO_LONG);
    }
    match read_config(alloc, text) {
        Ok(config) => serve_config(alloc, turns, &config, sink, clock, link),
        Err(ScheduleFault::Bad { line, why }) => tell_bad(alloc, sink, line, why),
        Err(ScheduleFault::Memory) => Status::MEMORY,
    }
}

/// Runs a configured node.
fn serve_config<K: Sink, C: Clock, L: Link>(
    alloc: Global,
    turns: u32,
    config: &Config,
    sink: &mut K,
    clock: &mut C,
    link: &mut L,
) -> Status
    ensures served { NodeServed (content config.now) turns result.0
        (outside (K.held sink.old) (C.ahead clock.old) (L.coming link.old) (L.sent link.old) (L.port link.old) (L.calls link.old))
        (outside (K.held sink.new) (C.ahead clock.new) (L.coming link.new) (L.sent link.new) (L.port link.new) (L.calls link.new)) }
    ensures statuses { (result.0 ≡ 0) ⊎ ((result.0 ≡ 4) ⊎ ((result.0 ≡ 5) ⊎ (result.0 ≡ 7))) }
    ensures write_fault { result.0 ≡ 4 → Rose (K.faults sink.old) (K.faults sink.new) }
    ensures link_fault { result.0 ≡ 7 → Rose (L.faults link.old) (L.faults link.new) }
    ensures no_fewer { (K.faults sink.old ≤ K.faults sink.new) × (L.faults link.old ≤ L.faults link.new) }
{
    match serve(alloc, config, clock, link, sink, turns) {
        Served::Done => Status::OK,
        Served::LinkFault => Status::LINK_FAULT,
        Served::WriteFault => Status::WRITE_FAULT,
        Served::Memory => Status::MEMORY,
    }
}
