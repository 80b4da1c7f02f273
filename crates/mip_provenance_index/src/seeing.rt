ghost use Rattle.std.specs.Prelude.{◌≡◌, option_map};
ghost use Rattle.mip_packets.specs.Says.{carried_of};
ghost use Rattle.mip_provenance.specs.Sights.{token_in};
ghost use Rattle.mip_provenance.specs.Sights.Sight.{Made};
ghost use Rattle.mip_provenance_index.specs.Sights.{sight_of, token_sighted, glimpse, is_mute};

use crate::sight::Sight;
use mip_entries::Entry;
use mip_packets::{Carried, carried_in};
use mip_words::{NodeId, Token};

/// The token of what a packet says, where that is a test.
fn token_in(carried: &Carried) -> Option<Token>
    ensures { option_map (λ t. t.0) result ≡ token_in (carried_of carried.now) }
{
    match carried {
        Carried::Test { token, .. } => Some(*token),
        _ => None,
    }
}

/// The token of the packet that is posted, where one is and it is a test.
pub fn token_sighted(sight: &Sight) -> Option<Token>
    ensures { option_map (λ t. t.0) result ≡ token_sighted (sight_of sight.now) }
{
    match sight {
        Sight::Sent { carried, .. } => token_in(carried),
        Sight::Injected { carried, .. } => token_in(carried),
        _ => None,
    }
}

/// Whether an entry tells nothing of tokens, updates, agents, lives or addresses.
pub fn is_mute(entry: &Entry) -> bool
    ensures { result ≡ is_mute entry.now }
{
    match entry {
        Entry::Sent { .. }
        | Entry::Injected { .. }
        | Entry::Heard { .. }
        | Entry::Home { .. }
        | Entry::Made { .. }
        | Entry::Restarted { .. }
        | Entry::Claimed { .. } => false,
        _ => true,
    }
}

/// The update that a mobile made from these tokens, as a sight.
fn made(node: NodeId, number: u64, home: Token, careof: Option<Token>) -> Sight<'static>
    ensures { sight_of result ≡ Made node.0 number home.0 (option_map (λ t. t.0) careof) }
{
    Sight::Made {
        node,
        number,
        home,
        careof,
    }
}

/// An entry as a sight, where the packet that was heard has this token. What was handed over is not looked at: no mark asks it.
pub fn sight(entry: &Entry, heard: Option<Token>) -> Sight<'_>
    ensures { sight_of result ≡ glimpse (option_map (λ t. t.0) heard) entry.now }
{
    match entry {
        Entry::Sent {
            number,
            node,
            packet,
            ..
        } => Sight::Sent {
            number: *number,
            node: *node,
            carried: carried_in(packet.as_slice()),
        },
        Entry::Injected {
            number,
            outsider,
            packet,
            ..
        } => Sight::Injected {
            number: *number,
            outsider: *outsider,
            carried: carried_in(packet.as_slice()),
        },
        Entry::Heard { outsider, .. } => Sight::Heard {
            outsider: *outsider,
            token: heard,
        },
        Entry::Handed { node, .. } => Sight::Handed {
            node: *node,
            token: None,
        },
        Entry::Home { node, .. } => Sight::Agent(*node),
        Entry::Made {
            node,
            number,
            home,
            careof,
            ..
        } => made(*node, *number, *home, *careof),
        Entry::Restarted { node } => Sight::Restarted(*node),
        _ => Sight::Quiet,
    }
}
