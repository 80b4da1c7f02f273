ghost use Rattle.std.specs.Prelude.{◌≡◌, ◌∷◌, ◌++◌, [], List, length, true, IfOk, OnOk, option_map};
ghost use Rattle.mip_entries.specs.declared.entry.Entry.{Entry};
ghost use Rattle.mip_provenance.specs.Entries.{packet_in};
ghost use Rattle.mip_provenance.specs.Marks.{mark_in};
ghost use Rattle.mip_recorder.specs.Packets.{comes_next, IsInOrder};
ghost use Rattle.mip_recorder.specs.Given.{past_of, with_entry, all_told};
ghost use Rattle.mip_recorder.specs.Watched.{IsWatched};

use crate::packet_tokens::PacketTokens;
use crate::packets::{heard, is_posting};
use mip_entries::{Entry, History, Witness};
use mip_ghost_log::GhostLog;
use mip_provenance::{AcceptedUpdate, Mark};
use mip_provenance_index::ProvenanceIndex;
use mip_words::Memory;
use std::alloc::Global;
use std::marker::Model;
use std::mem;

/// Room for the entries of one piece.
const PIECE: usize = 128;

/// A history as it goes on. It keeps what marks are found by, and gives its entries away.
///
/// Clauses see the entries that were given away, and those that were not (`ChronicleSeen`). Where a call ran out of memory, no
/// mark is found any more.
#[derive(Drop)]
pub struct Recorder {
    alloc: Global,
    watch: ProvenanceIndex,
    tokens: PacketTokens,
    is_whole: bool,
    told: GhostLog<History>,
    fresh: History,
}

impl Model for Recorder {
    ghost use Rattle.std.specs.Prelude.{◌≡◌, ◌++◌, List, true};
    ghost use Rattle.mip_entries.specs.declared.entry.Entry.{Entry};
    ghost use Rattle.mip_recorder.specs.Packets.{IsInOrder};
    ghost use Rattle.mip_recorder.specs.Given.{ChronicleSeen, joined};
    ghost use Rattle.mip_recorder.specs.Watched.{IsWatched};

    ghost Value = { ChronicleSeen };

    ghost view = { λ c. record { told = joined c.told.items; fresh = c.fresh } };

    ghost invariant = { λ c. c.is_whole ≡ true → IsInOrder (joined c.told.items ++ c.fresh) → IsWatched c.watch (joined c.told.items ++ c.fresh) c.tokens };
}

impl Recorder {
    /// Nothing has happened.
    pub fn new(alloc: Global) -> Result<Recorder, Memory>
        ensures { IfOk result (λ c. c ≡ record { told = []; fresh = [] }) }
    {
        Ok(Recorder {
            alloc,
            watch: ProvenanceIndex::new(alloc),
            tokens: PacketTokens::new(alloc),
            is_whole: true,
            told: GhostLog::new(),
            fresh: piece(alloc)?,
        })
    }

    /// An entry is left.
    pub fn push(&mut self, entry: Entry) -> Result<(), Memory>
        ensures { OnOk result (self.new ≡ with_entry entry self.old) }
    {
        let was_whole = self.is_whole;
        self.is_whole = false;
        follow(self.alloc, &mut self.watch, &mut self.tokens, &entry)?;
        self.fresh.push(entry)?;
        self.is_whole = was_whole;
        Ok(())
    }

    /// The mark of an update that is accepted next, where the packet that carried it has these bytes. What the node's check found may be
    /// given: where it is of the pair that is asked for, nothing is hashed, and the mark is the same.
    ///
    /// Packets are numbered from 0 in the order in which they are posted, and are heard and handed over only then.
    pub fn mark(
        &self,
        accepted: &AcceptedUpdate,
        packet: Option<&[u8]>,
        witness: Option<&Witness>,
    ) -> Result<Mark, Memory>
        ensures { IsInOrder (past_of self.now) → option_map (λ p. p.now) packet.entry ≡ packet_in (past_of self.now) accepted.now.number
            → IfOk result (λ m. m ≡ mark_in (past_of self.now) accepted.now) }
    {
        if !self.is_whole {
            return Err(Memory);
        }
        Ok(self.watch.mark(accepted, packet, witness))
    }

    /// How many entries were not given away.
    pub fn waiting(&self) -> usize
        ensures { result ≡ length self.now.fresh }
    {
        self.fresh.len()
    }

    /// The entries that were not given away. From here on they are.
    pub fn take(&mut self) -> Result<History, Memory>
        ensures given { IfOk result (λ h. h ≡ self.old.fresh) }
        ensures after { OnOk result (self.new ≡ all_told self.old) }
    {
        let next = piece(self.alloc)?;
        self.told = self.told.with(&self.fresh);
        Ok(mem::replace(&mut self.fresh, next))
    }

    /// The entries that were not given away.
    pub fn into_history(self) -> History
        ensures { result ≡ self.fresh }
    {
        self.fresh
    }
}

/// An empty history with room for a piece.
fn piece(alloc: Global) -> Result<History, Memory>
    ensures { IfOk result (λ h. h ≡ []) }
{
    let mut history = History::new(alloc)?;
    history.reserve(PIECE)?;
    Ok(history)
}

/// The watch and the tokens go along with one more entry.
fn follow(
    alloc: Global,
    watch: &mut ProvenanceIndex,
    tokens: &mut PacketTokens,
    entry: &Entry,
) -> Result<(), Memory>
    ensures { (past : List Entry) → IsWatched watch.old past tokens.old
        → comes_next (length tokens.old) entry.now ≡ true
        → OnOk result (IsWatched watch.new (past ++ entry.now ∷ []) tokens.new) }
{
    let heard = heard(tokens, entry);
    let token = watch.note(alloc, entry, heard)?;
    if is_posting(entry) {
        tokens.push(token)?;
    }
    Ok(())
}
