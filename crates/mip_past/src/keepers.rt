//! What a correspondent, or the correspondent part of a mobile, keeps of a home.

ghost use Rattle.std.specs.Prelude.{◌≡◌, option_map};
ghost use Rattle.std.specs.List.{list_any};
ghost use Rattle.mip_past.specs.Asking.{held_then, held_at, held_under_at, holds_at, floor_at};
ghost use Rattle.mip_past.specs.Holding.{holds_by};
ghost use Rattle.mip_past.specs.Recalling.{under_kept, floor_kept, made_told};

use crate::acceptances::{lasts, made_told, recall};
use crate::kept::Kept;
use crate::past::Past;
use mip_entries::Entry;
use mip_settled::held;
use mip_words::{Address, Moment, NodeId};

/// The care-of address of the binding of the number, where it stands.
fn under_kept(now: Moment, home: Address, kept: Option<Kept>) -> Option<Address>
    ensures { result ≡ under_kept now.0 home.0 kept }
{
    let made = kept?.under?;
    if made.careof.0 != home.0 && now.0 < made.end.0 {
        Some(made.careof)
    } else {
        None
    }
}

/// The sequence, while it is kept.
fn floor_kept(
    past: &Past<'_>,
    now: Moment,
    node: NodeId,
    home: Address,
    kept: Option<Kept>,
) -> Option<u16>
    ensures { result ≡ floor_kept now.0 (held_then past.now node.0 home.0 now.0) kept }
{
    let kept = kept?;
    if lasts(past, now, node, home, kept) {
        Some(kept.sequence)
    } else {
        None
    }
}

/// Under the number of the binding of the home that an entry makes, if it makes one, the care-of address is held.
fn holds_by(past: &Past<'_>, node: NodeId, home: Address, careof: Address, entry: &Entry) -> bool
    ensures { result ≡ holds_by (λ number. held_under_at past.now node.0 home.0 number) careof.0 (made_told node.0 home.0 entry.now) }
{
    let Some(made) = made_told(entry, node, home) else {
        return false;
    };
    match past.held_under(node, home, made.number) {
        Some(held) => held.0 == careof.0,
        None => false,
    }
}

/// So it is of one of the entries.
fn any_holds(past: &Past<'_>, node: NodeId, home: Address, careof: Address) -> bool
    ensures { result ≡ list_any (λ e. holds_by (λ number. held_under_at past.now node.0 home.0 number) careof.0 (made_told node.0 home.0 e)) past.now.entries.now }
{
    past.entries
        .iter()
        .any(|entry| holds_by(past, node, home, careof, entry))
}

impl Past<'_> {
    /// The care-of address that a node holds for a home: of its bindings that stand, that of the last one accepted.
    pub fn held(&self, node: NodeId, home: Address) -> Option<Address>
        ensures { option_map (λ a. a.0) result ≡ held_at self.now node.0 home.0 }
    {
        held::held(self.entries, self.start, self.moment(), node, home)
    }

    /// The one that it holds for a home under a number.
    pub fn held_under(&self, node: NodeId, home: Address, number: u8) -> Option<Address>
        ensures { option_map (λ a. a.0) result ≡ held_under_at self.now node.0 home.0 number }
    {
        let recall = recall(self, node, home, number);
        under_kept(self.moment(), home, recall.kept)
    }

    /// The node holds a home with a care-of address, under some number.
    pub fn holds(&self, node: NodeId, home: Address, careof: Address) -> bool
        ensures { result ≡ holds_at self.now node.0 home.0 careof.0 }
    {
        any_holds(self, node, home, careof)
    }

    /// The sequence that an update of a home has to come after, while one is kept.
    pub fn floor(&self, node: NodeId, home: Address) -> Option<u16>
        ensures { result ≡ floor_at self.now node.0 home.0 }
    {
        let recall = recall(self, node, home, 0);
        floor_kept(self, self.moment(), node, home, recall.kept)
    }
}
