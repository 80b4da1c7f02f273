ghost use Rattle.std.specs.Prelude.{◌≡◌, ℕ, ◌<◌, ◌≤◌, length, take, OnOk, OnErr, IsErrOf};
ghost use Rattle.std.specs.Io.KnownBytes.{append_known};
ghost use Rattle.mip_outside.specs.Cause.{Rose};

use mip_lines::cut_at;
use mip_outside::{PutFault, Sink};

/// Writes the text line by line, so that no call of the sink is given more than one line.
#[tactic(auto, using(mip_outside::proofs::Known::append_piece, mip_outside::proofs::Known::Rose_since))]
pub fn write_text<K: Sink>(sink: &mut K, text: &[u8]) -> Result<(), PutFault>
    ensures ok { OnOk result (K.held sink.new ≡ append_known (K.held sink.old) text.now) }
    ensures err { OnErr result ((count : ℕ) × (count < length text.now) × (K.held sink.new ≡ append_known (K.held sink.old) (take count text.now))) }
    ensures no_fewer { K.faults sink.old ≤ K.faults sink.new }
    ensures cause { IsErrOf result PutFault.Failed → Rose (K.faults sink.old) (K.faults sink.new) }
{
    let mut at = 0;
    while at < text.len() {
        let end = line_end(text, at);
        write_line(sink, &text[at..end])?;
        at = end;
    }
    Ok(())
}

/// The place behind the line that begins here.
fn line_end(text: &[u8], at: usize) -> usize
    requires { at < length text.now }
    ensures more { at < result }
    ensures within { result ≤ length text.now }
{
    match cut_at(b'\n', &text[at..]) {
        Some((line, _)) => at + line.len() + 1,
        None => text.len(),
    }
}

/// Writes a line, or what of it the sink takes.
#[tactic(auto, using(mip_outside::proofs::Known::append_front, mip_outside::proofs::Known::Rose_since))]
pub fn write_line<K: Sink>(sink: &mut K, line: &[u8]) -> Result<(), PutFault>
    ensures ok { OnOk result (K.held sink.new ≡ append_known (K.held sink.old) line.now) }
    ensures err { OnErr result ((count : ℕ) × (count < length line.now) × (K.held sink.new ≡ append_known (K.held sink.old) (take count line.now))) }
    ensures no_fewer { K.faults sink.old ≤ K.faults sink.new }
    ensures cause { IsErrOf result PutFault.Failed → Rose (K.faults sink.old) (K.faults sink.new) }
{
    let mut at = 0;
    while at < line.len() {
        at += sink.give(&line[at..])?;
    }
    Ok(())
}
