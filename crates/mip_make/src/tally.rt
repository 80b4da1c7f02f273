ghost use Rattle.std.specs.Prelude.{◌≡◌, ◌++◌, [], map, IfOk, OnOk};
ghost use Rattle.mip_lines.specs.Lines.{line_text, lines_text};
ghost use Rattle.mip_make.specs.Counting.{kept_line};
ghost use Rattle.mip_make.specs.Summaries.{count_line, summary_text};

use crate::counts::Counts;
use crate::word::Word;
use itoa::Buffer;
use mip_entries::History;
use mip_ghost_log::GhostLog;
use mip_lines::put_line;
use mip_words::{Bytes, Memory};
use std::alloc::Global;
use std::marker::Model;

/// The counts of a run, which comes in pieces. It keeps none of them.
///
/// Clauses see the entries that were counted, oldest first.
#[derive(Drop)]
pub struct Tally {
    counts: Counts,
    told: GhostLog<History>,
}

impl Model for Tally {
    ghost use Rattle.std.specs.Prelude.{◌≡◌, List};
    ghost use Rattle.mip_entries.specs.declared.entry.Entry.{Entry};
    ghost use Rattle.mip_make.specs.Counting.{counts_of, joined};

    ghost Value = { List Entry };

    ghost view = { λ t. joined t.told.items };

    ghost invariant = { λ t. t.counts ≡ counts_of (joined t.told.items) };
}

impl Tally {
    /// Nothing was counted.
    pub fn new() -> Tally
        ensures { result ≡ [] }
    {
        Tally {
            counts: Counts::none(),
            told: GhostLog::new(),
        }
    }

    /// The next piece of the run is counted.
    pub fn take(&mut self, piece: &History)
        ensures { self.new ≡ self.old ++ piece.now }
    {
        self.counts = self.counts.with(piece.as_slice());
        self.told = self.told.with(piece);
    }

    /// The summary of a run of so many events: their number, that of the entries that were counted, and those of seven words.
    ///
    /// Of 2^64 - 1 entries or more there is none, and `Err(Memory)` is the answer.
    #[tactic(auto, unfolding(crate::specs::Summaries::summary_text))]
    pub fn text(&self, alloc: Global, events: usize) -> Result<Bytes, Memory>
        ensures { IfOk result (λ b. b ≡ summary_text events self.now) }
    {
        if self.counts.entries == u64::MAX {
            return Err(Memory);
        }
        let mut out = Bytes::new(alloc);
        put_count(&mut out, b"events", events as u64)?;
        put_count(&mut out, b"entries", self.counts.entries)?;
        put_words(&mut out, &self.counts, &WORDS)?;
        Ok(out)
    }
}

/// The words that are counted, in their order.
const WORDS: [Word; 7] = [
    Word::Sent,
    Word::Handed,
    Word::Up,
    Word::Accepted,
    Word::Denied,
    Word::Dropped,
    Word::Forged,
];

fn put_count(out: &mut Bytes, word: &[u8], count: u64) -> Result<(), Memory>
    ensures { OnOk result (out.new ≡ out.old ++ line_text (count_line word.now count)) }
{
    let mut digits = Buffer::new();
    put_line(out, &[word, digits.format(count).as_bytes()])
}

/// The line of a word: how many entries begin with it.
fn put_word(out: &mut Bytes, counts: &Counts, word: Word) -> Result<(), Memory>
    ensures { OnOk result (out.new ≡ out.old ++ line_text (kept_line counts.now word)) }
{
    put_count(out, word.text(), counts.of(word))
}

fn put_words(out: &mut Bytes, counts: &Counts, words: &[Word]) -> Result<(), Memory>
    ensures { OnOk result (out.new ≡ out.old ++ lines_text (map (kept_line counts.now) words.now)) }
{
    for word in words {
        put_word(out, counts, *word)?;
    }
    Ok(())
}
