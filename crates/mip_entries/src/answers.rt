ghost use Rattle.std.specs.Prelude.{◌≡◌, ◌∷◌, ◌++◌, [], length, slice_get, IfOk, OnOk, OnErr};
ghost use Rattle.std.specs.Option.{option_copied};

use crate::answer::Answer;
use mip_tokens::Witness;
use mip_words::Memory;
use std::alloc::Global;
use std::marker::Model;

/// What a node does, in order; and what the check behind an acceptance found, so that a mark need not hash it again. Clauses see what
/// it does.
#[derive(Drop)]
pub struct Answers {
    list: Vec<Answer>,
    witness: Option<Box<Witness>>,
}

impl Model for Answers {
    ghost use Rattle.std.specs.Prelude.{List};
    ghost use Rattle.mip_entries.specs.declared.answer.Answer.{Answer};

    ghost Value = { List Answer };

    ghost view = { λ a. a.list.items };
}

impl Answers {
    pub fn new(alloc: Global) -> Result<Answers, Memory>
        ensures { IfOk result (λ a. a ≡ []) }
    {
        Ok(Answers {
            list: Vec::new(alloc),
            witness: None,
        })
    }

    /// Appends an answer.
    pub fn push(&mut self, answer: Answer) -> Result<(), Memory>
        ensures ok { OnOk result (self.new ≡ self.old ++ answer ∷ []) }
        ensures err { OnErr result (self.new ≡ self.old) }
    {
        self.list.push(answer)?;
        Ok(())
    }

    /// Keeps what the check behind an acceptance found. Nothing that a contract sees changes.
    pub fn keep_witness(&mut self, witness: Option<Box<Witness>>)
        ensures { self.new ≡ self.old }
    {
        self.witness = witness;
    }

    /// What the check behind an acceptance found, which is kept no longer. Nothing that a contract sees changes.
    pub fn take_witness(&mut self) -> Option<Box<Witness>>
        ensures { self.new ≡ self.old }
    {
        self.witness.take()
    }

    pub fn len(&self) -> usize
        ensures { result ≡ length self.now }
    {
        self.list.len()
    }

    /// The answer at a place from 0; none past the end.
    pub fn at(&self, place: usize) -> Option<&Answer>
        ensures { option_copied result ≡ slice_get self.now place }
    {
        self.list.get(place)
    }

    /// The answers themselves, in order.
    pub fn into_vec(self) -> Vec<Answer>
        ensures { result.items ≡ self }
    {
        self.list
    }
}
