//! The answers of a call, as C fetches them one by one.

ghost use Rattle.std.specs.Prelude.{◌≡◌, slice_get};
ghost use Rattle.mip_c_words.specs.AnswerQueues.{TellsNext};

use crate::answer_fields::{AnswerFields, bytes_of, fields_of};
use crate::giving::tell;
use crate::status::{NONE, OK};
use mip_entries::Answers;

/// The answers of the last call of a node that C holds, with how many of them were fetched.
#[derive(Drop)]
pub struct AnswerQueue {
    pub answers: Answers,
    pub given: usize,
}

impl AnswerQueue {
    /// The answers of a call, of which none was fetched yet.
    pub fn of(answers: Answers) -> AnswerQueue
        ensures { result ≡ record { answers = answers; given = 0 } }
    {
        AnswerQueue { answers, given: 0 }
    }

    /// Tells the next answer.
    #[tactic(auto, using(std::proofs::lemmas::Option::slice_get_past))]
    pub fn next(&mut self, fields: &mut AnswerFields, bytes: &mut [u8], size: &mut usize) -> u32
        ensures { TellsNext (slice_get self.old.answers self.old.given) self.old self.new result fields.old fields.new bytes.old bytes.new size.old size.new }
    {
        if self.given >= self.answers.len() {
            return NONE;
        }
        match self.answers.at(self.given) {
            Some(answer) => {
                *fields = fields_of(answer);
                let status = tell(OK, bytes_of(answer), bytes, size);
                if status == OK {
                    self.given += 1;
                }
                status
            }
            None => NONE,
        }
    }
}
