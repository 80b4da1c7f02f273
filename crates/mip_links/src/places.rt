//! Places in lists of prefixes and of flags.

ghost use Rattle.std.specs.Prelude.{◌≡◌, ℕ, ◌<◌, ◌≤◌, false, length, map, IfSome, slice_index_or};
ghost use Rattle.mip_links.specs.Table.{link_of};
ghost use Rattle.mip_links.specs.Nets.{IsLow};

use mip_words::{Address, Prefix};

/// The link of an address.
pub(crate) fn link_place(links: &[Prefix], address: Address) -> Option<u8>
    requires { length links.now ≤ 32 }
    ensures found { result ≡ link_of (map (λ p. p.0) links.now) address.0 }
    ensures within { IfSome result (λ place. place < length links.now) }
{
    let prefix = address.prefix();
    let mut place = 0;
    for link in links {
        if link.0 == prefix.0 {
            return Some(place);
        }
        place += 1;
    }
    None
}

/// Whether the flag at a place stands.
pub(crate) fn stands(flags: &[bool], place: usize) -> bool
    ensures { result ≡ slice_index_or flags.now place false }
{
    match flags.get(place) {
        Some(flag) => *flag,
        None => false,
    }
}

/// The first flag that stands, where none does before this place.
pub(crate) fn first_after(flags: &[bool], from: usize) -> usize
    requires within { from ≤ length flags.now }
    requires clear { (i : ℕ) → i < from → slice_index_or flags.now i false ≡ false }
    ensures { IsLow flags.now result }
{
    let mut place = from;
    while place < flags.len() && !flags[place] {
        place += 1;
    }
    place
}
