ghost use Rattle.std.specs.Prelude.{◌≡◌, ◌∷◌, ◌++◌, [], OnOk, OnErr, IfOk, Some, None, true, if◌then◌else◌};
ghost use Rattle.std.specs.List.{filter};
ghost use Rattle.mip_provenance.specs.Marks.{mark_in};
ghost use Rattle.mip_afresh.specs.Told.{tells_of_network, tells_of_mobile, tells, told_of};
ghost use Rattle.mip_history.specs.Bound.{is_accepted};

use crate::questions::declared;
use mip_afresh_marks::Sights;
use mip_entries::{Entry, History};
use mip_provenance::{AcceptedUpdate, Mark, mark_behind};
use mip_words::Memory;
use std::alloc::Global;
use std::marker::Model;

/// What has happened so far. Beside the entries it keeps those that tell, for questions, and sights, for marks.
#[derive(Drop)]
pub(crate) struct Past {
    alloc: Global,
    entries: History,
    telling: History,
    sights: Sights,
    /// What is kept beside the entries is whole: no call ran out of memory, and packets took their numbers in turn.
    is_kept: bool,
}

impl Model for Past {
    ghost use Rattle.std.specs.Prelude.{◌≡◌, List, true};
    ghost use Rattle.mip_entries.specs.declared.entry.Entry.{Entry};
    ghost use Rattle.mip_afresh.specs.Told.{IsBeside};

    ghost Value = { List Entry };

    ghost view = { λ p. p.entries };

    ghost invariant = { λ p. p.is_kept ≡ true → IsBeside p.entries p.telling p.sights };
}

/// An entry that tells.
fn told_of(entry: &Entry) -> Option<Entry>
    ensures { result ≡ told_of entry.now }
{
    match network_of(entry) {
        Some(told) => Some(told),
        None => match mobile_of(entry) {
            Some(told) => Some(told),
            None => accepted_of(entry),
        },
    }
}

/// An entry that tells of the moment, of the network, or of a life.
fn network_of(entry: &Entry) -> Option<Entry>
    ensures { result ≡ (if tells_of_network entry.now then Some entry.now else None) }
{
    match entry {
        Entry::At { moment } => Some(Entry::At { moment: *moment }),
        Entry::Claimed { who, link, address } => Some(Entry::Claimed {
            who: *who,
            link: *link,
            address: *address,
        }),
        Entry::Released { who, link, address } => Some(Entry::Released {
            who: *who,
            link: *link,
            address: *address,
        }),
        Entry::Taken {
            who,
            link,
            address,
            holder,
        } => Some(Entry::Taken {
            who: *who,
            link: *link,
            address: *address,
            holder: *holder,
        }),
        Entry::Listening { outsider, link } => Some(Entry::Listening {
            outsider: *outsider,
            link: *link,
        }),
        Entry::Deafened { outsider, link } => Some(Entry::Deafened {
            outsider: *outsider,
            link: *link,
        }),
        Entry::Restarted { node } => Some(Entry::Restarted { node: *node }),
        _ => None,
    }
}

/// An entry that tells of where a mobile is, or of what is registered or bound.
fn mobile_of(entry: &Entry) -> Option<Entry>
    ensures { result ≡ (if tells_of_mobile entry.now then Some entry.now else None) }
{
    match entry {
        Entry::Moved { node, link } => Some(Entry::Moved {
            node: *node,
            link: *link,
        }),
        Entry::Careof { node, address } => Some(Entry::Careof {
            node: *node,
            address: *address,
        }),
        Entry::Home {
            node,
            home,
            careof,
            sequence,
            end,
        } => Some(Entry::Home {
            node: *node,
            home: *home,
            careof: *careof,
            sequence: *sequence,
            end: *end,
        }),
        Entry::Registered { node, agent, end } => Some(Entry::Registered {
            node: *node,
            agent: *agent,
            end: *end,
        }),
        Entry::Unregistered { node, agent } => Some(Entry::Unregistered {
            node: *node,
            agent: *agent,
        }),
        Entry::Bound { node, peer, end } => Some(Entry::Bound {
            node: *node,
            peer: *peer,
            end: *end,
        }),
        Entry::Unbound { node, peer } => Some(Entry::Unbound {
            node: *node,
            peer: *peer,
        }),
        _ => None,
    }
}

/// An entry that tells of an acceptance.
fn accepted_of(entry: &Entry) -> Option<Entry>
    ensures { result ≡ (if is_accepted entry.now then Some entry.now else None) }
{
    match entry {
        Entry::Accepted {
            node,
            number,
            home,
            binding,
            careof,
            sequence,
            end,
            home_index,
            careof_index,
        } => Some(Entry::Accepted {
            node: *node,
            number: *number,
            home: *home,
            binding: *binding,
            careof: *careof,
            sequence: *sequence,
            end: *end,
            home_index: *home_index,
            careof_index: *careof_index,
        }),
        _ => None,
    }
}

/// Takes an entry that tells.
fn tell(telling: &mut History, entry: &Entry) -> Result<(), Memory>
    ensures { OnOk result (telling.new ≡ telling.old ++ filter tells (entry.now ∷ [])) }
{
    match told_of(entry) {
        Some(told) => telling.push(told)?,
        None => (),
    }
    Ok(())
}

impl Past {
    /// Nothing has happened.
    pub(crate) fn new(alloc: Global) -> Result<Past, Memory>
        ensures { IfOk result (λ p. p ≡ []) }
    {
        let entries = History::new(alloc)?;
        let telling = History::new(alloc)?;
        Ok(Past {
            alloc,
            entries,
            telling,
            sights: Sights::new(alloc),
            is_kept: true,
        })
    }

    /// An entry is left.
    pub(crate) fn push(&mut self, entry: Entry) -> Result<(), Memory>
        ensures ok { OnOk result (self.new ≡ self.old ++ entry ∷ []) }
        ensures err { OnErr result (self.new ≡ self.old) }
    {
        let is_kept = self.is_kept && self.sights.is_next(&entry);
        self.is_kept = false;
        tell(&mut self.telling, &entry)?;
        self.sights.note(self.alloc, &entry)?;
        self.entries.push(entry)?;
        self.is_kept = is_kept;
        Ok(())
    }

    /// The entries, oldest first.
    pub(crate) fn entries(&self) -> &History
        ensures { result.now ≡ self.now }
    {
        &self.entries
    }

    /// Entries that answer each question of the network and of what was accepted as all of them do: those that tell.
    #[tactic(auto, using(crate::proofs::Told::told_again))]
    pub(crate) fn told(&self) -> &History
        ensures { filter tells result.now ≡ filter tells self.now }
    {
        if self.is_kept {
            &self.telling
        } else {
            &self.entries
        }
    }

    /// The same, oldest first.
    pub(crate) fn telling(&self) -> &[Entry]
        ensures { filter tells result.now ≡ filter tells self.now }
    {
        self.told().as_slice()
    }

    /// The mark of an update that is accepted next.
    pub(crate) fn mark(&self, accepted: &AcceptedUpdate) -> Mark
        ensures { result ≡ mark_in self.now accepted.now }
    {
        if self.is_kept {
            let own = declared(self.telling.as_slice(), accepted.node.0);
            self.sights.mark(accepted, own)
        } else {
            mark_behind(self.entries.as_slice(), accepted)
        }
    }
}
