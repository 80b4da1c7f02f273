//! What is known of each schedule. Each `let _start` reads a field for the prover alone, who then has what the type says of the
//! whole.

ghost use Rattle.std.specs.Prelude.{◌≡◌, ◌≤◌, ℕ, List, Ok};
ghost use Rattle.mip_schedule.specs.Contents.{Content};
ghost use Rattle.mip_schedule.specs.EventTimes.{waited};
ghost use Rattle.mip_schedule.specs.Lawful.{IsLawful};
ghost use Rattle.mip_symbols.specs.Places.{AreFew, NamesFound};
ghost use Rattle.mip_schedule.specs.Reading.{reading};
ghost use Rattle.mip_schedule.specs.Schedules.{content};
ghost use Rattle.mip_schedule.specs.Spelling.{spelling};

use crate::schedule::Schedule;

/// A law: the text of a schedule is read as the schedule.
pub fn spelling_read(schedule: &Schedule)
    ensures { reading (spelling (content schedule.now)) ≡ Ok (content schedule.now) }
{
    let _start = schedule.start;
}

/// A law: a schedule has few links, nodes and outsiders.
pub fn few(schedule: &Schedule)
    ensures { AreFew schedule.now.declarations }
{
    let _start = schedule.start;
}

/// A law: each name that a schedule declares is found at its number.
pub fn names_found(schedule: &Schedule)
    ensures { NamesFound schedule.now.declarations }
{
    let _start = schedule.start;
}

/// A law: each declaration of a schedule stands after those before it, and each event after the declarations and the
/// events before it; all that events name is declared, and their numbers and bytes stay within their bounds. The start is
/// at most 2 to the 40 ms, and numbers of lines have 32 bits.
pub fn lawful(schedule: &Schedule)
    ensures { IsLawful (content schedule.now) }
{
    let _start = schedule.start;
}

/// A law: a text that is read as a schedule waits for 36,000 s at most, in all.
#[tactic(auto, using(crate::proofs::WaitLaws::waits_read))]
pub fn waits_are_short()
    ensures { (text : List ℕ) (s : Content) → reading text ≡ Ok s → waited s.events ≤ 36000000 }
{}
