//! The words that begin the lines of a trace.

ghost use Rattle.std.specs.Prelude.{◌≡◌, slice_get};
ghost use Rattle.std.specs.List.{position};
ghost use Rattle.std.specs.Str.{bytes_eq};
ghost use Rattle.mip_trace.specs.EntryLines.{word_text, entry_words};
ghost use Rattle.mip_trace.specs.EntryReading.{word_among, word_of};

/// The first field of a line, which says what the line tells.
#[derive(Clone, Copy)]
pub enum EntryWord {
    Sent,
    Handed,
    Gone,
    Lost,
    Unsent,
    Listening,
    Deafened,
    Injected,
    Heard,
    Claimed,
    Released,
    Taken,
    Denied,
    Dropped,
    Up,
    At,
    Idle,
    Restarted,
    Settled,
    Moved,
    Advertised,
    Careof,
    Prefixes,
    Registered,
    Unregistered,
    Refused,
    Chosen,
    Made,
    Bound,
    Unbound,
    Accepted,
    Origin,
    Forged,
    Home,
    Row,
}

/// The word as it is written.
pub fn word_text(word: EntryWord) -> &'static [u8]
    ensures { result.now ≡ word_text word }
{
    match word {
        EntryWord::Sent => b"sent",
        EntryWord::Handed => b"handed",
        EntryWord::Gone => b"gone",
        EntryWord::Lost => b"lost",
        EntryWord::Unsent => b"unsent",
        EntryWord::Listening => b"listening",
        EntryWord::Deafened => b"deafened",
        EntryWord::Injected => b"injected",
        EntryWord::Heard => b"heard",
        EntryWord::Claimed => b"claimed",
        EntryWord::Released => b"released",
        EntryWord::Taken => b"taken",
        EntryWord::Denied => b"denied",
        EntryWord::Dropped => b"dropped",
        EntryWord::Up => b"up",
        EntryWord::At => b"at",
        EntryWord::Idle => b"idle",
        EntryWord::Restarted => b"restarted",
        EntryWord::Settled => b"settled",
        EntryWord::Moved => b"moved",
        EntryWord::Advertised => b"advertised",
        EntryWord::Careof => b"careof",
        EntryWord::Prefixes => b"prefixes",
        EntryWord::Registered => b"registered",
        EntryWord::Unregistered => b"unregistered",
        EntryWord::Refused => b"refused",
        EntryWord::Chosen => b"chosen",
        EntryWord::Made => b"made",
        EntryWord::Bound => b"bound",
        EntryWord::Unbound => b"unbound",
        EntryWord::Accepted => b"accepted",
        EntryWord::Origin => b"origin",
        EntryWord::Forged => b"forged",
        EntryWord::Home => b"home",
        EntryWord::Row => b"row",
    }
}

/// Every word.
#[tactic(auto, unfolding(crate::specs::EntryLines::entry_words))]
fn entry_words() -> [EntryWord; 35]
    ensures { result ≡ entry_words }
{
    [
        EntryWord::Sent,
        EntryWord::Handed,
        EntryWord::At,
        EntryWord::Gone,
        EntryWord::Lost,
        EntryWord::Heard,
        EntryWord::Moved,
        EntryWord::Careof,
        EntryWord::Claimed,
        EntryWord::Released,
        EntryWord::Unsent,
        EntryWord::Listening,
        EntryWord::Deafened,
        EntryWord::Injected,
        EntryWord::Taken,
        EntryWord::Denied,
        EntryWord::Dropped,
        EntryWord::Up,
        EntryWord::Idle,
        EntryWord::Restarted,
        EntryWord::Settled,
        EntryWord::Advertised,
        EntryWord::Prefixes,
        EntryWord::Registered,
        EntryWord::Unregistered,
        EntryWord::Refused,
        EntryWord::Chosen,
        EntryWord::Made,
        EntryWord::Bound,
        EntryWord::Unbound,
        EntryWord::Accepted,
        EntryWord::Origin,
        EntryWord::Forged,
        EntryWord::Home,
        EntryWord::Row,
    ]
}

fn word_place(words: &[EntryWord], field: &[u8]) -> Option<usize>
    ensures { result ≡ position (λ word. bytes_eq (word_text word) field.now) words.now }
{
    words.iter().position(|word| word_text(*word) == field)
}

fn at(words: &[EntryWord], place: usize) -> Option<EntryWord>
    ensures { result ≡ slice_get words.now place }
{
    words.get(place).copied()
}

/// The one of these that a field is.
#[tactic(auto, using(crate::proofs::WordLaws::among_found, crate::proofs::WordLaws::among_none))]
fn word_among(words: &[EntryWord], field: &[u8]) -> Option<EntryWord>
    ensures { result ≡ word_among words.now field.now }
{
    match word_place(words, field) {
        Some(place) => at(words, place),
        None => None,
    }
}

/// The word that a field is.
pub fn word_of(field: &[u8]) -> Option<EntryWord>
    ensures { result ≡ word_of field.now }
{
    word_among(&entry_words(), field)
}
