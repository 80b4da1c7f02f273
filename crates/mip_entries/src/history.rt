ghost use Rattle.std.specs.Prelude.{◌≡◌, ◌∷◌, ◌++◌, [], List, length, slice_get, IfOk, OnOk, OnErr};
ghost use Rattle.std.specs.List.{AllByRecursion};
ghost use Rattle.std.specs.Option.{option_copied};
ghost use Rattle.mip_entries.specs.Widths.{HasWidths};

use crate::entry::Entry;
use crate::widths::widths;
use mip_words::Memory;
use std::alloc::Global;
use std::marker::Model;

/// What happened, oldest first.
#[derive(Drop)]
pub struct History {
    list: Vec<Entry>,
}

impl Model for History {
    ghost use Rattle.std.specs.Prelude.{List};
    ghost use Rattle.mip_entries.specs.declared.entry.Entry.{Entry};

    ghost Value = { List Entry };

    ghost view = { λ a. a.list.items };

    ghost use Rattle.std.specs.List.{AllByRecursion};
    ghost use Rattle.mip_entries.specs.Widths.{HasWidths};

    ghost invariant = { λ a. AllByRecursion HasWidths a.list.items };
}

impl History {
    pub fn new(alloc: Global) -> Result<History, Memory>
        ensures { IfOk result (λ a. a ≡ []) }
    {
        Ok(History {
            list: Vec::new(alloc),
        })
    }

    /// Makes room for this many entries more.
    pub fn reserve(&mut self, more: usize) -> Result<(), Memory>
        ensures { self.new ≡ self.old }
    {
        self.list.reserve(more)?;
        Ok(())
    }

    /// Appends an entry.
    pub fn push(&mut self, entry: Entry) -> Result<(), Memory>
        ensures ok { OnOk result (self.new ≡ self.old ++ entry ∷ []) }
        ensures err { OnErr result (self.new ≡ self.old) }
    {
        widths(&entry);
        self.list.push(entry)?;
        Ok(())
    }

    /// A law: each number of each entry, but the cause of a `forged`, fits its bits, and packets, data and tokens are of bytes.
    pub fn widths(&self)
        ensures { AllByRecursion HasWidths self.now }
    {
        // For the prover alone: once the list is read, the facts of its entries are at hand.
        let _count = self.list.len();
    }

    /// The entries, oldest first.
    pub fn as_slice(&self) -> &[Entry]
        ensures { result.now ≡ self.now }
    {
        self.list.as_slice()
    }

    pub fn len(&self) -> usize
        ensures { result ≡ length self.now }
    {
        self.list.len()
    }

    /// The entry at a place from 0; none past the end.
    pub fn at(&self, place: usize) -> Option<&Entry>
        ensures { option_copied result ≡ slice_get self.now place }
    {
        self.list.get(place)
    }
}
