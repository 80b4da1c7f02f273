//! Sights go along with a history.

ghost use Rattle.std.specs.Prelude.{◌≡◌, ◌∷◌, ◌++◌, [], List, length, true, OnOk};
ghost use Rattle.mip_entries.specs.declared.entry.Entry.{Entry};
ghost use Rattle.mip_afresh_marks.specs.Sighting.{is_next, StandFor};

use crate::post::Post;
use crate::sight::Sight;
use crate::sights::Sights;
use mip_entries::Entry;
use mip_provenance::number_posted;
use mip_words::Memory;
use std::alloc::Global;

impl Sights {
    /// Nothing has happened.
    pub fn new(alloc: Global) -> Sights
        ensures { StandFor result [] }
    {
        Sights {
            seen: Vec::new(alloc),
            posts: Vec::new(alloc),
        }
    }

    /// An entry comes next: a packet that it posts takes the next number.
    pub fn is_next(&self, entry: &Entry) -> bool
        ensures { result ≡ is_next (length self.now.posts.items) entry.now }
    {
        match number_posted(entry) {
            Some(number) => number == self.posts.len() as u64,
            None => true,
        }
    }

    /// Takes the entry that comes next. Nothing is said of the sights after Memory.
    pub fn note(&mut self, alloc: Global, entry: &Entry) -> Result<(), Memory>
        ensures { (past : List Entry) → StandFor self.old past → is_next (length self.old.posts.items) entry.now ≡ true
            → OnOk result (StandFor self.new (past ++ entry.now ∷ [])) }
    {
        let sight = Sight::by(alloc, entry)?;
        self.seen.push(sight)?;
        match Post::by(alloc, entry)? {
            Some(post) => self.posts.push(post)?,
            None => (),
        }
        Ok(())
    }
}
