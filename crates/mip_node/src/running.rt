ghost use Rattle.std.specs.Prelude.{◌≡◌, ◌∷◌, ◌++◌, [], Some, OnOk, OnErr, IsErrOf, option_map};
ghost use Rattle.mip_config.specs.Configs.{content};
ghost use Rattle.std.specs.Result.{IsOk};
ghost use Rattle.mip_outside.specs.LinkCalls.{called};
ghost use Rattle.mip_outside.specs.declared.asked.Asked.TheVariants.{Listen};
ghost use Rattle.mip_frames.specs.Calling.{listening, EndsRun};
ghost use Rattle.mip_node.specs.CallingLaws.{EndsTurns};
ghost use Rattle.mip_node.specs.Faults.{CountsFaults, CountsBoth, BrokePart, WrotePart, BrokeAfter, WroteAfter, CutAfter, LinkFailed, StoppedAfter};
ghost use Rattle.mip_node.specs.FaultsLaws.{CutPart};
ghost use Rattle.mip_node.specs.Roles.{IsBy};
ghost use Rattle.mip_node.specs.Runs.{HasRun, Ran, WroteFront, start, outside};
ghost use Rattle.mip_node.specs.RunsLaws.{TurnDone, stand};
ghost use Rattle.mip_node.specs.Settings.{said};
ghost use Rattle.mip_node.specs.Turns.{first_node};

use crate::ended::Ended;
use crate::node::Node;
use crate::setting::Setting;
use crate::telling::tell;
use crate::turn::turn;
use mip_config::Config;
use mip_frames::Served;
use mip_outside::{Clock, Link, PutFault, Sink};
use std::alloc::Global;

/// The node listens on its port.
fn listen<L: Link>(link: &mut L, port: u16) -> Result<(), Ended>
    ensures ok { OnOk result (L.port link.new ≡ option_map (λ _. Some port) (L.port link.old)) }
    ensures kept { (L.sent link.new ≡ L.sent link.old) × (L.coming link.new ≡ L.coming link.old) }
    ensures only { OnErr result (result ≡ Err Ended.Link) }
    ensures listens { OnOk result (L.calls link.new ≡ listening (L.calls link.old)) }
    ensures refused { OnErr result (L.calls link.new ≡ L.calls link.old ++ called Listen (Some PutFault.Failed) ∷ []) }
    ensures faults { CountsFaults (IsErrOf result Ended.Link) (L.faults link.old) (L.faults link.new) }
{
    match link.listen_on(port) {
        Ok(()) => Ok(()),
        Err(_) => Err(Ended::Link),
    }
}

/// A turn, by its number, with its text.
fn turn_told<C: Clock, L: Link, K: Sink>(
    node: &mut Node,
    setting: &Setting<'_>,
    clock: &mut C,
    link: &mut L,
    sink: &mut K,
    number: u32,
) -> Result<(), Ended>
    requires later { IsBy node.old.role (C.last clock.old) }
    ensures ok { OnOk result (TurnDone (said setting.now) number
        (stand (C.ahead clock.old) (L.coming link.old) node.old (L.sent link.old) (K.held sink.old))
        (stand (C.ahead clock.new) (L.coming link.new) node.new (L.sent link.new) (K.held sink.new))) }
    ensures link_fault { IsErrOf result Ended.Link → BrokePart (said setting.now) number
        (stand (C.ahead clock.old) (L.coming link.old) node.old (L.sent link.old) (K.held sink.old))
        (outside (C.ahead clock.new) (L.coming link.new) (L.sent link.new) (K.held sink.new)) }
    ensures write_fault { IsErrOf result Ended.Sink → WrotePart (said setting.now) number
        (stand (C.ahead clock.old) (L.coming link.old) node.old (L.sent link.old) (K.held sink.old))
        (outside (C.ahead clock.new) (L.coming link.new) (L.sent link.new) (K.held sink.new)) }
    ensures memory { IsErrOf result Ended.Memory → CutPart (said setting.now) number
        (stand (C.ahead clock.old) (L.coming link.old) node.old (L.sent link.old) (K.held sink.old))
        (outside (C.ahead clock.new) (L.coming link.new) (L.sent link.new) (K.held sink.new)) }
    ensures kept { IsBy node.new.role (C.last clock.new) × (L.port link.new ≡ L.port link.old) }
    ensures calls { EndsTurns (IsOk result) (IsErrOf result Ended.Sink) (IsErrOf result Ended.Link) (IsErrOf result Ended.Memory) (L.calls link.old) (L.calls link.new) }
    ensures faults { CountsBoth (IsErrOf result Ended.Link) (IsErrOf result Ended.Sink)
        (L.faults link.old) (L.faults link.new) (K.faults sink.old) (K.faults sink.new) }
{
    match turn(node, setting, clock, link, number) {
        Ok(()) => tell(setting.alloc, node, sink),
        Err(PutFault::Failed) => Err(Ended::Link),
        Err(PutFault::Memory) => Err(Ended::Memory),
    }
}

/// So many turns of a node that had none.
#[tactic(auto, using(mip_outside::proofs::Known::Rose_since))]
fn run_turns<C: Clock, L: Link, K: Sink>(
    node: &mut Node,
    setting: &Setting<'_>,
    clock: &mut C,
    link: &mut L,
    sink: &mut K,
    turns: u32,
) -> Result<(), Ended>
    requires later { IsBy node.old.role (C.last clock.old) }
    requires first { node.old ≡ first_node (said setting.now) }
    ensures ok { OnOk result (HasRun
        (start (said setting.now) (C.ahead clock.old) (L.coming link.old) (L.sent link.old) (K.held sink.old)) turns
        (stand (C.ahead clock.new) (L.coming link.new) node.new (L.sent link.new) (K.held sink.new))) }
    ensures link_fault { IsErrOf result Ended.Link → BrokeAfter
        (start (said setting.now) (C.ahead clock.old) (L.coming link.old) (L.sent link.old) (K.held sink.old)) turns
        (outside (C.ahead clock.new) (L.coming link.new) (L.sent link.new) (K.held sink.new)) }
    ensures write_fault { IsErrOf result Ended.Sink → WroteAfter
        (start (said setting.now) (C.ahead clock.old) (L.coming link.old) (L.sent link.old) (K.held sink.old)) turns
        (outside (C.ahead clock.new) (L.coming link.new) (L.sent link.new) (K.held sink.new)) }
    ensures memory { IsErrOf result Ended.Memory → CutAfter
        (start (said setting.now) (C.ahead clock.old) (L.coming link.old) (L.sent link.old) (K.held sink.old)) turns
        (outside (C.ahead clock.new) (L.coming link.new) (L.sent link.new) (K.held sink.new)) }
    ensures port { L.port link.new ≡ L.port link.old }
    ensures calls { EndsTurns (IsOk result) (IsErrOf result Ended.Sink) (IsErrOf result Ended.Link) (IsErrOf result Ended.Memory) (L.calls link.old) (L.calls link.new) }
    ensures faults { CountsBoth (IsErrOf result Ended.Link) (IsErrOf result Ended.Sink)
        (L.faults link.old) (L.faults link.new) (K.faults sink.old) (K.faults sink.new) }
{
    for done in 0..turns {
        turn_told(node, setting, clock, link, sink, done + 1)?;
    }
    Ok(())
}

/// Each turn of a configured node, and how that ended.
#[tactic(auto, unfolding(crate::specs::Roles::IsBy), using(mip_outside::proofs::Known::Rose_since))]
fn run<C: Clock, L: Link, K: Sink>(
    alloc: Global,
    config: &Config,
    clock: &mut C,
    link: &mut L,
    sink: &mut K,
    turns: u32,
) -> Result<(), Ended>
    ensures ok { OnOk result (Ran
        (start (content config.now) (C.ahead clock.old) (L.coming link.old) (L.sent link.old) (K.held sink.old)) turns
        (outside (C.ahead clock.new) (L.coming link.new) (L.sent link.new) (K.held sink.new))) }
    ensures port { OnOk result (L.port link.new ≡ option_map (λ _. Some config.now.port) (L.port link.old)) }
    ensures link_fault { IsErrOf result Ended.Link → LinkFailed
        (start (content config.now) (C.ahead clock.old) (L.coming link.old) (L.sent link.old) (K.held sink.old)) turns
        (outside (C.ahead clock.new) (L.coming link.new) (L.sent link.new) (K.held sink.new)) }
    ensures write_fault { IsErrOf result Ended.Sink → WroteAfter
        (start (content config.now) (C.ahead clock.old) (L.coming link.old) (L.sent link.old) (K.held sink.old)) turns
        (outside (C.ahead clock.new) (L.coming link.new) (L.sent link.new) (K.held sink.new)) }
    ensures memory { IsErrOf result Ended.Memory → StoppedAfter
        (start (content config.now) (C.ahead clock.old) (L.coming link.old) (L.sent link.old) (K.held sink.old)) turns
        (outside (C.ahead clock.new) (L.coming link.new) (L.sent link.new) (K.held sink.new)) }
    ensures calls { EndsRun (IsOk result) (IsErrOf result Ended.Sink) (IsErrOf result Ended.Link) (IsErrOf result Ended.Memory) (L.calls link.old) (L.calls link.new) }
    ensures faults { CountsBoth (IsErrOf result Ended.Link) (IsErrOf result Ended.Sink)
        (L.faults link.old) (L.faults link.new) (K.faults sink.old) (K.faults sink.new) }
{
    let setting = Setting::new(alloc, config)?;
    let mut node = Node::new(&setting)?;
    listen(link, config.port)?;
    run_turns(&mut node, &setting, clock, link, sink, turns)
}

/// Runs a node over a link for so many turns, by its configuration: it listens on its port, and in each turn it reads the clock, does
/// the work that is due, sends its payloads, waits at most 20 milliseconds for a datagram, and writes the text of the turn.
///
/// Where the run ends before its last turn, the answer says which call failed: one of the link, one of the sink, or one for memory.
pub fn serve<C: Clock, L: Link, K: Sink>(
    alloc: Global,
    config: &Config,
    clock: &mut C,
    link: &mut L,
    sink: &mut K,
    turns: u32,
) -> Served
    ensures done { result ≡ Served.Done → Ran
        (start (content config.now) (C.ahead clock.old) (L.coming link.old) (L.sent link.old) (K.held sink.old)) turns
        (outside (C.ahead clock.new) (L.coming link.new) (L.sent link.new) (K.held sink.new)) }
    ensures port { result ≡ Served.Done → L.port link.new ≡ option_map (λ _. Some config.now.port) (L.port link.old) }
    ensures link_fault { result ≡ Served.LinkFault → LinkFailed
        (start (content config.now) (C.ahead clock.old) (L.coming link.old) (L.sent link.old) (K.held sink.old)) turns
        (outside (C.ahead clock.new) (L.coming link.new) (L.sent link.new) (K.held sink.new)) }
    ensures write_fault { result ≡ Served.WriteFault → WroteAfter
        (start (content config.now) (C.ahead clock.old) (L.coming link.old) (L.sent link.old) (K.held sink.old)) turns
        (outside (C.ahead clock.new) (L.coming link.new) (L.sent link.new) (K.held sink.new)) }
    ensures memory { result ≡ Served.Memory → StoppedAfter
        (start (content config.now) (C.ahead clock.old) (L.coming link.old) (L.sent link.old) (K.held sink.old)) turns
        (outside (C.ahead clock.new) (L.coming link.new) (L.sent link.new) (K.held sink.new)) }
    ensures front { WroteFront (start (content config.now) (C.ahead clock.old) (L.coming link.old) (L.sent link.old) (K.held sink.old)) turns (K.held sink.new) }
    ensures calls { EndsRun (result ≡ Served.Done) (result ≡ Served.WriteFault) (result ≡ Served.LinkFault) (result ≡ Served.Memory) (L.calls link.old) (L.calls link.new) }
    ensures faults { CountsBoth (result ≡ Served.LinkFault) (result ≡ Served.WriteFault)
        (L.faults link.old) (L.faults link.new) (K.faults sink.old) (K.faults sink.new) }
{
    match run(alloc, config, clock, link, sink, turns) {
        Ok(()) => Served::Done,
        Err(Ended::Link) => Served::LinkFault,
        Err(Ended::Sink) => Served::WriteFault,
        Err(Ended::Memory) => Served::Memory,
    }
}
