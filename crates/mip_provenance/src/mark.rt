ghost use Rattle.std.specs.Prelude.{◌≡◌};
ghost use Rattle.mip_provenance.specs.Entries.{mark_entry};

use mip_entries::Entry;

/// Where the tokens and the update of an acceptance came from.
#[derive(Clone, Copy, Debug, PartialEq, Eq)]
pub enum Mark {
    /// The first packets with the home token and with the care-of token, the second none where the binding ends, and
    /// the first packet of the update.
    Origin {
        hot: u64,
        cot: Option<u64>,
        update: u64,
    },
    /// The acceptance has no such origin: the lowest cause that holds, 1 to 3.
    Forged(u8),
}

impl Mark {
    /// The mark as an entry.
    pub fn entry(self) -> Entry
        ensures { result ≡ mark_entry self }
    {
        match self {
            Mark::Origin { hot, cot, update } => Entry::Origin { hot, cot, update },
            Mark::Forged(cause) => Entry::Forged { cause },
        }
    }
}
