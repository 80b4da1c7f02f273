//! The correspondent part of a mobile is asked, and what it answers goes on (RFC 6275 section 11.3.1).

ghost use Rattle.std.specs.Prelude.{◌≡◌, OnOk};
ghost use Rattle.mip_ipv6.specs.Packet.{packet as tree};
ghost use Rattle.mip_rules_correspondent.specs.Calls as parts;
ghost use Rattle.mip_rules_correspondent.specs.Questions.{held_of};
ghost use Rattle.mip_rules_mobile.specs.OutRules.{part_answers, asks_part};
ghost use Rattle.mip_rules_mobile.specs.Transitions.{Transition};
ghost use Rattle.mip_afresh_mobile_state.specs.Turns.{Shows};
ghost use Rattle.mip_afresh_mobile.specs.Asking.{GoesBy};

use crate::handed::Handed;
use mip_afresh_mobile_rules::pass_all;
use mip_afresh_mobile_state::Turn;
use mip_afresh_rules::{Early, Passed, Payload, Routable, refresh, send, take_part};
use mip_entries::Answers;
use mip_words::{Address, Memory};
use std::alloc::Global;

/// The part was asked, and this is what it answers.
fn pass_on(alloc: Global, turn: &mut Turn, answers: Answers) -> Result<(), Memory>
    ensures { (call : parts.Call) (t : Transition) → answers ≡ part_answers t call → Shows turn.old t → OnOk result (Shows turn.new (asks_part call t)) }
{
    turn.ask_part()?;
    pass_all(alloc, turn, answers)
}

/// About a packet that has passed the checks. At a moment to which no run comes it is answered as if memory had run out.
pub fn ask_about(
    alloc: Global,
    turn: &mut Turn,
    handed: &Handed,
    passed: &Passed<'_>,
) -> Result<(), Memory>
    ensures { GoesBy handed.now.kept passed.now.packet.head.source passed.now.packet.head.home result
        (asks_part (parts.Part handed.now.number (tree passed.now.packet))) turn.old turn.new }
{
    let at = Early::new(turn.now)?;
    let answers = take_part(
        alloc,
        turn.mobile.identity(),
        at,
        handed.number,
        handed.kept,
        passed,
    )?;
    pass_on(alloc, turn, answers)
}

/// For data, where it holds this care-of address for the destination.
pub fn ask_data(
    alloc: Global,
    turn: &mut Turn,
    to: Routable,
    payload: &Payload<'_>,
    held: Option<Address>,
) -> Result<(), Memory>
    ensures { (t : Transition) → held ≡ held_of t.known.part.known turn.old.now.0 to.address → Shows turn.old t
        → OnOk result (Shows turn.new (asks_part (parts.Send to.address payload.now.proto payload.now.bytes.now) t)) }
{
    let answers = send(alloc, turn.mobile.identity(), to, payload, held)?;
    pass_on(alloc, turn, answers)
}

/// For a Binding Refresh Request, where it holds this care-of address for the home.
pub fn ask_refresh(
    alloc: Global,
    turn: &mut Turn,
    home: Routable,
    held: Option<Address>,
) -> Result<(), Memory>
    ensures { (t : Transition) → held ≡ held_of t.known.part.known turn.old.now.0 home.address → Shows turn.old t
        → OnOk result (Shows turn.new (asks_part (parts.Refresh home.address) t)) }
{
    let answers = refresh(alloc, turn.mobile.identity(), home, held)?;
    pass_on(alloc, turn, answers)
}
