//! The entries of claims.

ghost use Rattle.std.specs.Prelude.{◌≡◌};
ghost use Rattle.mip_entries.specs.declared.entry.Entry.TheVariants.{Claimed, Taken};

use mip_entries::Entry;
use mip_words::{Address, LinkId};

pub(crate) fn claimed(who: u8, link: LinkId, address: Address) -> Entry
    ensures { result ≡ Claimed who link address }
{
    Entry::Claimed { who, link, address }
}

pub(crate) fn taken(who: u8, link: LinkId, address: Address, holder: u8) -> Entry
    ensures { result ≡ Taken who link address holder }
{
    Entry::Taken {
        who,
        link,
        address,
        holder,
    }
}
