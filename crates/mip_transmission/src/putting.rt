//! A node's packets are handed to its wire.

ghost use Rattle.std.specs.Prelude.{◌≡◌, ◌++◌, ◌∷◌, ◌≤◌, [], Err, IfOk, IfErr, IsErrOf, OnErr, option_map};
ghost use Rattle.mip_outside.specs.Cause.{Rose};
ghost use Rattle.mip_words.specs.declared.why.Why.{Why};
ghost use Rattle.mip_entries.specs.declared.answer.Answer.TheVariants.{Note};
ghost use Rattle.mip_entries.specs.declared.entry.Entry.TheVariants.{Unsent};
ghost use Rattle.mip_transmission.specs.Putting.{after_put, Puts, PutsAll, PutsFront, put_fault, puts_for, puts_of, sends_in, sends_of};

use crate::fault::StationFault;
use mip_entries::{Answer, Answers, Entry};
use mip_outside::{Put, Wire};
use mip_words::{Bytes, MYSELF, Shield, Why};
use std::alloc::Global;

/// What becomes of a packet that its wire answered this to.
fn after_put(put: Put, shield: Option<Shield>, packet: Bytes) -> Answer
    ensures { result ≡ after_put put shield packet }
{
    match put {
        Put::Sent => Answer::Send { shield, packet },
        Put::NoRoute => unsent(Why::NoRoute),
        Put::Oversize => unsent(Why::Size),
    }
}

fn unsent(why: Why) -> Answer
    ensures { result ≡ Note (Unsent (record { 0 = 0 }) why) }
{
    Answer::Note(Entry::Unsent { node: MYSELF, why })
}

/// One answer: a packet is handed to the wire, by one call, and an entry stays as it is.
fn send_one<W: Wire>(wire: &mut W, answer: Answer) -> Result<Answer, StationFault>
    ensures puts { IfOk result (λ b. Puts W.gives answer b) }
    ensures out { IfOk result (λ b. W.out wire.new ≡ option_map (λ items. items ++ sends_in b) (W.out wire.old)) }
    ensures err { OnErr result (W.out wire.new ≡ W.out wire.old) }
    ensures answered { IfOk result (λ b. W.answered wire.new ≡ W.answered wire.old ++ puts_for answer b) }
    ensures once { IfErr result (λ fault. W.answered wire.new ≡ W.answered wire.old ++ Err (put_fault fault) ∷ []) }
    ensures no_fewer { W.faults wire.old ≤ W.faults wire.new }
    ensures failed { IsErrOf result StationFault.Failed → Rose (W.faults wire.old) (W.faults wire.new) }
    ensures same { W.is_same wire.old wire.new }
{
    match answer {
        Answer::Note(entry) => Ok(Answer::Note(entry)),
        Answer::Send { shield, packet } => {
            let put = wire.put(shield, packet.as_slice())?;
            Ok(after_put(put, shield, packet))
        }
    }
}

/// All answers in order, each packet by one call of the wire. After a fault the wire sent a front of their packets, and no more.
pub fn send_all<W: Wire>(
    alloc: Global,
    wire: &mut W,
    asked: Answers,
) -> Result<Answers, StationFault>
    ensures puts { IfOk result (λ answers. PutsAll W.gives asked answers) }
    ensures out { IfOk result (λ answers. W.out wire.new ≡ option_map (λ items. items ++ sends_of answers) (W.out wire.old)) }
    ensures answered { IfOk result (λ answers. W.answered wire.new ≡ W.answered wire.old ++ puts_of asked answers) }
    ensures front { OnErr result (PutsFront W.gives asked (W.out wire.old) (W.out wire.new) (W.answered wire.old) (W.answered wire.new)) }
    ensures no_fewer { W.faults wire.old ≤ W.faults wire.new }
    ensures failed { IsErrOf result StationFault.Failed → Rose (W.faults wire.old) (W.faults wire.new) }
    ensures same { W.is_same wire.old wire.new }
{
    let mut answers = Answers::new(alloc)?;
    for answer in asked.into_vec() {
        answers.push(send_one(wire, answer)?)?;
    }
    Ok(answers)
}
