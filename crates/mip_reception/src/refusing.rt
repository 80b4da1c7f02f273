//! The answers of a node that refuses: a packet that it drops, an update that it denies.

ghost use Rattle.std.specs.Prelude.{◌≡◌};
ghost use Rattle.mip_entries.specs.declared.answer.Answer.TheVariants.{Note};
ghost use Rattle.mip_entries.specs.declared.entry.Entry.TheVariants as entries;
ghost use Rattle.mip_entries.specs.Completed.{myself};

use mip_entries::{Answer, Entry};
use mip_words::{MYSELF, Why};

/// A packet is dropped.
pub fn dropped(number: u64, why: Why) -> Answer
    ensures { result ≡ Note (entries.Dropped myself number why) }
{
    Answer::Note(Entry::Dropped {
        node: MYSELF,
        number,
        why,
    })
}

/// The update in a packet is denied.
pub fn denied(number: u64, status: u8) -> Answer
    ensures { result ≡ Note (entries.Denied myself number status) }
{
    Answer::Note(Entry::Denied {
        node: MYSELF,
        number,
        status,
    })
}
