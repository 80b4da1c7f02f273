//! Links and prefixes.

ghost use Rattle.std.specs.Prelude.{◌≡◌, map, option_map};
ghost use Rattle.mip_links.specs.Table.{link_of, link_from};
ghost use Rattle.mip_history.specs.Delivery.{other_link};

use crate::few_links::FewLinks;
use mip_words::{Address, LinkId, Prefix};

/// The link of an address: the first that has its prefix.
pub fn link_of(links: FewLinks<'_>, address: Address) -> Option<LinkId>
    ensures { option_map (λ l. l.0) result ≡ link_of (map (λ p. p.0) links.entry.prefixes.now) address.0 }
{
    let place = link_place(links, address.prefix())?;
    Some(LinkId(place))
}

/// The place of a prefix among those of the links.
fn link_place(links: FewLinks<'_>, prefix: Prefix) -> Option<u8>
    ensures { result ≡ link_from 0 (map (λ p. p.0) links.entry.prefixes.now) prefix.0 }
{
    let prefixes = links.prefixes;
    let mut place = 0;
    for link in prefixes {
        if link.0 == prefix.0 {
            return Some(place);
        }
        place += 1;
    }
    None
}

/// The link that a packet comes to, where that is another one than it was sent from.
pub fn other_link(link: Option<LinkId>, from: LinkId) -> Option<LinkId>
    ensures { option_map (λ l. l.0) result ≡ other_link (option_map (λ l. l.0) link) from.0 }
{
    match link {
        Some(link) if link.0 != from.0 => Some(link),
        _ => None,
    }
}
