ghost use Rattle.std.specs.Prelude.{◌≡◌, ◌+◌, ◌++◌, [], List};
ghost use Rattle.mip_entries.specs.declared.entry.Entry.{Entry};
ghost use Rattle.mip_make.specs.Counting.{kept_count, counts_of, count_in};

use crate::word::Word;
use mip_entries::Entry;

/// How many entries there were, and how many of them begin with each word. A count that comes to 2^64 - 1 stays there.
#[derive(Clone, Copy)]
pub struct Counts {
    pub entries: u64,
    pub sent: u64,
    pub handed: u64,
    pub up: u64,
    pub accepted: u64,
    pub denied: u64,
    pub dropped: u64,
    pub forged: u64,
}

impl Counts {
    /// Of no entries.
    pub fn none() -> Counts
        ensures { result ≡ counts_of [] }
    {
        Counts {
            entries: 0,
            sent: 0,
            handed: 0,
            up: 0,
            accepted: 0,
            denied: 0,
            dropped: 0,
            forged: 0,
        }
    }

    /// With these entries behind those that were counted.
    pub fn with(self, entries: &[Entry]) -> Counts
        ensures { (h : List Entry) → self ≡ counts_of h → result ≡ counts_of (h ++ entries.now) }
    {
        Counts {
            entries: raised(self.entries, entries.len()),
            sent: raised(self.sent, Word::Sent.count(entries)),
            handed: raised(self.handed, Word::Handed.count(entries)),
            up: raised(self.up, Word::Up.count(entries)),
            accepted: raised(self.accepted, Word::Accepted.count(entries)),
            denied: raised(self.denied, Word::Denied.count(entries)),
            dropped: raised(self.dropped, Word::Dropped.count(entries)),
            forged: raised(self.forged, Word::Forged.count(entries)),
        }
    }

    /// How many entries begin with this word.
    pub fn of(&self, word: Word) -> u64
        ensures { result ≡ count_in self.now word }
    {
        match word {
            Word::Sent => self.sent,
            Word::Handed => self.handed,
            Word::Up => self.up,
            Word::Accepted => self.accepted,
            Word::Denied => self.denied,
            Word::Dropped => self.dropped,
            Word::Forged => self.forged,
        }
    }
}

/// A count that goes up.
fn raised(count: u64, more: usize) -> u64
    ensures { result ≡ kept_count (count + more) }
{
    count.saturating_add(more as u64)
}
