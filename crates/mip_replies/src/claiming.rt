//! Writing what the claims of a schedule's run are on a link.

ghost use Rattle.std.specs.Prelude.{◌≡◌, ℕ, ◌<◌, ◌≤◌, [], length, take, IfOk, OnOk, OnErr, IsErrOf};
ghost use Rattle.std.specs.Io.KnownBytes.{append_known};
ghost use Rattle.mip_outside.specs.Cause.{Rose};
ghost use Rattle.mip_schedule.specs.Schedules.{content};
ghost use Rattle.mip_replay.specs.Permitted.{permitted};
ghost use Rattle.mip_proxynd.specs.Claims.{rows_in};
ghost use Rattle.mip_proxynd.specs.Text.{adverts, end_text};
ghost use Rattle.mip_replies.specs.Answers.{claims_of};

use mip_outside::{PutFault, Sink};
use mip_printing::write_text;
use mip_proxynd::{AddressClaims, tell_end, tell_entries};
use mip_replay::Run;
use mip_schedule::{Declarations, Schedule};
use mip_symbols::Declaration;
use mip_words::{Address, Bytes};
use std::alloc::Global;

/// Writes what the claims of a schedule's run are on a link while it runs, and at its end the claims that stand, and who holds the
/// address that is asked for. It keeps the claims that stand, and the text of the entries that the run gave away last.
pub fn write_claims<K: Sink>(
    alloc: Global,
    sink: &mut K,
    schedule: Schedule,
    ask: Option<Address>,
) -> Result<(), PutFault>
    ensures ok { OnOk result (K.held sink.new ≡ append_known (K.held sink.old) (claims_of ask (content schedule))) }
    ensures front { OnErr result ((count : ℕ) × (K.held sink.new ≡ append_known (K.held sink.old) (take count (claims_of ask (content schedule))))) }
    ensures part { IsErrOf result PutFault.Failed → ((count : ℕ) × (count < length (claims_of ask (content schedule)))
        × (K.held sink.new ≡ append_known (K.held sink.old) (take count (claims_of ask (content schedule))))) }
    ensures no_fewer { K.faults sink.old ≤ K.faults sink.new }
    ensures cause { IsErrOf result PutFault.Failed → Rose (K.faults sink.old) (K.faults sink.new) }
{
    let mut claims = AddressClaims::new(alloc);
    let declarations = write_adverts(alloc, sink, schedule, &mut claims)?;
    write_end(alloc, sink, declarations.as_slice(), &claims, ask)
}

/// Writes what the claims of a schedule's run advertise, keeps those that stand at its end, and gives what the schedule declares.
fn write_adverts<K: Sink>(
    alloc: Global,
    sink: &mut K,
    schedule: Schedule,
    claims: &mut AddressClaims,
) -> Result<Declarations, PutFault>
    requires { claims.old ≡ [] }
    ensures declared { IfOk result (λ ds. ds ≡ schedule.declarations) }
    ensures ok { OnOk result (K.held sink.new ≡ append_known (K.held sink.old) (adverts schedule.declarations (permitted (content schedule)))) }
    ensures stands { OnOk result (claims.new ≡ rows_in [] (permitted (content schedule))) }
    ensures front { OnErr result ((count : ℕ) × (count ≤ length (adverts schedule.declarations (permitted (content schedule))))
        × (K.held sink.new ≡ append_known (K.held sink.old) (take count (adverts schedule.declarations (permitted (content schedule)))))) }
    ensures part { IsErrOf result PutFault.Failed → ((count : ℕ) × (count < length (adverts schedule.declarations (permitted (content schedule))))
        × (K.held sink.new ≡ append_known (K.held sink.old) (take count (adverts schedule.declarations (permitted (content schedule)))))) }
    ensures no_fewer { K.faults sink.old ≤ K.faults sink.new }
    ensures cause { IsErrOf result PutFault.Failed → Rose (K.faults sink.old) (K.faults sink.new) }
{
    let mut text = Bytes::new(alloc);
    let (mut run, declarations) = Run::open(alloc, schedule)?;
    while let Some(piece) = run.next(alloc)? {
        text.clear();
        tell_entries(
            alloc,
            &mut text,
            declarations.as_slice(),
            claims,
            piece.as_slice(),
        )?;
        write_text(sink, text.as_slice())?;
    }
    Ok(declarations)
}

/// Writes the claims that stand, and who holds the address that is asked for.
fn write_end<K: Sink>(
    alloc: Global,
    sink: &mut K,
    declarations: &[Declaration],
    claims: &AddressClaims,
    ask: Option<Address>,
) -> Result<(), PutFault>
    ensures ok { OnOk result (K.held sink.new ≡ append_known (K.held sink.old) (end_text declarations.now claims.now ask)) }
    ensures front { OnErr result ((count : ℕ) × (count ≤ length (end_text declarations.now claims.now ask))
        × (K.held sink.new ≡ append_known (K.held sink.old) (take count (end_text declarations.now claims.now ask)))) }
    ensures part { IsErrOf result PutFault.Failed → ((count : ℕ) × (count < length (end_text declarations.now claims.now ask))
        × (K.held sink.new ≡ append_known (K.held sink.old) (take count (end_text declarations.now claims.now ask)))) }
    ensures no_fewer { K.faults sink.old ≤ K.faults sink.new }
    ensures cause { IsErrOf result PutFault.Failed → Rose (K.faults sink.old) (K.faults sink.new) }
{
    let mut text = Bytes::new(alloc);
    tell_end(alloc, &mut text, declarations, claims, ask)?;
    write_text(sink, text.as_slice())
}
