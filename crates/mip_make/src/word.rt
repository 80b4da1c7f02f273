ghost use Rattle.std.specs.Prelude.{◌≡◌};
ghost use Rattle.std.specs.List.{count_by};
ghost use Rattle.mip_make.specs.Summaries.{is_of, word_text};

use mip_entries::Entry;

/// The words of a trace that a summary counts.
#[derive(Clone, Copy)]
pub enum Word {
    Sent,
    Handed,
    Up,
    Accepted,
    Denied,
    Dropped,
    Forged,
}

impl Word {
    pub fn text(self) -> &'static [u8]
        ensures { result.now ≡ word_text self }
    {
        match self {
            Word::Sent => b"sent",
            Word::Handed => b"handed",
            Word::Up => b"up",
            Word::Accepted => b"accepted",
            Word::Denied => b"denied",
            Word::Dropped => b"dropped",
            Word::Forged => b"forged",
        }
    }

    /// Whether the line of an entry begins with this word.
    fn is_of(self, entry: &Entry) -> bool
        ensures { result ≡ is_of self entry.now }
    {
        match self {
            Word::Sent => matches!(entry, Entry::Sent { .. }),
            Word::Handed => matches!(entry, Entry::Handed { .. }),
            Word::Up => matches!(entry, Entry::Up { .. }),
            Word::Accepted => matches!(entry, Entry::Accepted { .. }),
            Word::Denied => matches!(entry, Entry::Denied { .. }),
            Word::Dropped => matches!(entry, Entry::Dropped { .. }),
            Word::Forged => matches!(entry, Entry::Forged { .. }),
        }
    }

    /// How many entries begin with this word.
    pub fn count(self, entries: &[Entry]) -> usize
        ensures { result ≡ count_by (is_of self) entries.now }
    {
        entries.iter().filter(|entry| self.is_of(entry)).count()
    }
}
