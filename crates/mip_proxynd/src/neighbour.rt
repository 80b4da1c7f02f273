ghost use Rattle.std.specs.Prelude.{◌≡◌};
ghost use Rattle.mip_proxynd.specs.Fields.{target_of};
ghost use Rattle.mip_proxynd.specs.Tables.{kept_in};

use crate::neighbour_entry::NeighbourEntry;
use mip_words::Address;

/// A neighbour message (RFC 4861 sections 4.3 and 4.4).
#[derive(Clone, Copy, Debug, PartialEq, Eq)]
pub enum Neighbour {
    /// Type 135, Neighbour Solicitation: who holds this address?
    Solicit {
        target: Address,
        /// The sender's link-layer address: the first option 1.
        layer: Option<[u8; 6]>,
    },
    /// Type 136, Neighbour Advertisement: the target is held here.
    Advert {
        /// Flag R: the sender is a router.
        router: bool,
        /// Flag S: the message answers a solicitation.
        solicited: bool,
        /// Flag O: the message overrides what was heard before.
        over: bool,
        target: Address,
        /// The target's link-layer address: the first option 2.
        layer: Option<[u8; 6]>,
    },
}

impl Neighbour {
    /// The address that is asked for, or advertised.
    pub fn target(&self) -> Address
        ensures { result ≡ target_of self.now }
    {
        match self {
            Neighbour::Solicit { target, .. } | Neighbour::Advert { target, .. } => *target,
        }
    }

    /// The link-layer address that an advertisement has, and whether it overrides.
    pub(crate) fn kept(&self) -> Option<NeighbourEntry>
        ensures { result ≡ kept_in self.now }
    {
        match self {
            Neighbour::Advert {
                over,
                layer: Some(layer),
                ..
            } => Some(NeighbourEntry {
                layer: *layer,
                over: *over,
            }),
            _ => None,
        }
    }
}
