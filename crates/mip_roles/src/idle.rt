ghost use Rattle.std.specs.Prelude.{◌≡◌, [], ◌∷◌, IfOk};
ghost use Rattle.mip_entries.specs.declared.answer.Answer.TheVariants.{Note};
ghost use Rattle.mip_entries.specs.declared.entry.Entry.TheVariants.{Idle};

use mip_entries::{Answer, Answers, Entry};
use mip_words::Memory;
use std::alloc::Global;

/// What is nothing to a node leaves `idle`.
pub fn idle(alloc: Global) -> Result<Answers, Memory>
    ensures { IfOk result (λ a. a ≡ Note Idle ∷ []) }
{
    let mut answers = Answers::new(alloc)?;
    answers.push(Answer::Note(Entry::Idle))?;
    Ok(answers)
}
