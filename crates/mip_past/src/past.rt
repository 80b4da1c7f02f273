ghost use Rattle.std.specs.Prelude.{◌≡◌, take};

use mip_entries::Entry;
use mip_words::Moment;

/// The entries before a place of a history, oldest first, and the moment at which the history began.
#[derive(Clone, Copy)]
pub struct Past<'a> {
    pub entries: &'a [Entry],
    pub start: Moment,
}

impl<'a> Past<'a> {
    /// What lies before a place of a history that began at a moment: all of it where it has no such place.
    pub fn before(history: &'a [Entry], place: usize, start: Moment) -> Past<'a>
        ensures entries { result.entries.now ≡ take place history.now }
        ensures start { result.start ≡ start }
    {
        let entries = match history.get(..place) {
            Some(front) => front,
            None => history,
        };
        Past { entries, start }
    }
}
