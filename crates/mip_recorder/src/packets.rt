//! The packets of a history.

ghost use Rattle.std.specs.Prelude.{◌≡◌, is_some, option_map};
ghost use Rattle.mip_provenance_index.specs.Stands.{number_posted};
ghost use Rattle.mip_recorder.specs.Packets.{heard_at};

use crate::packet_tokens::PacketTokens;
use mip_entries::Entry;
use mip_words::Token;

/// Whether an entry posts a packet.
pub fn is_posting(entry: &Entry) -> bool
    ensures { result ≡ is_some (number_posted entry.now) }
{
    matches!(entry, Entry::Sent { .. } | Entry::Injected { .. })
}

/// The token of the packet that an entry says was heard, where it is a test.
pub fn heard(tokens: &PacketTokens, entry: &Entry) -> Option<Token>
    ensures { option_map (λ t. t.0) result ≡ heard_at tokens.now entry.now }
{
    match entry {
        Entry::Heard { number, .. } => tokens.token(*number),
        _ => None,
    }
}
