//! The text of a turn.

ghost use Rattle.std.specs.Prelude.{◌≡◌, ℕ, None, take, OnOk, OnErr, IsErrOf};
ghost use Rattle.std.specs.Io.KnownBytes.{append_known};
ghost use Rattle.mip_trace.specs.Lines.{trace_text};
ghost use Rattle.mip_node.specs.Faults.{CountsFaults};

use crate::ended::Ended;
use crate::node::Node;
use mip_outside::{PutFault, Sink};
use mip_printing::write_entries;
use mip_trace::NameTable;
use mip_words::Bytes;
use std::alloc::Global;

/// The room for a line that is taken at once.
const LINE: usize = 512;

fn write<K: Sink>(alloc: Global, node: &Node, sink: &mut K) -> Result<(), PutFault>
    ensures ok { OnOk result (K.held sink.new ≡ append_known (K.held sink.old) (trace_text None node.now.entries)) }
    ensures front { OnErr result ((count : ℕ) × (K.held sink.new ≡ append_known (K.held sink.old) (take count (trace_text None node.now.entries)))) }
    ensures faults { CountsFaults (IsErrOf result PutFault.Failed) (K.faults sink.old) (K.faults sink.new) }
{
    let names = NameTable::untabled(alloc, None);
    let mut line = Bytes::with_capacity(alloc, LINE)?;
    write_entries(sink, &names, &mut line, node.entries())
}

/// The text of the turn is written.
pub fn tell<K: Sink>(alloc: Global, node: &Node, sink: &mut K) -> Result<(), Ended>
    ensures ok { OnOk result (K.held sink.new ≡ append_known (K.held sink.old) (trace_text None node.now.entries)) }
    ensures front { OnErr result ((count : ℕ) × (K.held sink.new ≡ append_known (K.held sink.old) (take count (trace_text None node.now.entries)))) }
    ensures other { IsErrOf result Ended.Link → ⊥ }
    ensures faults { CountsFaults (IsErrOf result Ended.Sink) (K.faults sink.old) (K.faults sink.new) }
{
    match write(alloc, node, sink) {
        Ok(()) => Ok(()),
        Err(PutFault::Failed) => Err(Ended::Sink),
        Err(PutFault::Memory) => Err(Ended::Memory),
    }
}
