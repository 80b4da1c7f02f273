//! Where a mobile is, with which agent it is registered, and with which peers it is bound.

ghost use Rattle.std.specs.Prelude.{◌≡◌, ◌≤◌, ◌+◌, ◌%◌, fold};
ghost use Rattle.mip_history.specs.ClaimsLaws.{is_free_for};
ghost use Rattle.mip_past.specs.Asking.{present_at, standing_by, standing_of_node, leaves_by, leaves_at, place_told, binding_number_at, agent_at, is_bound_at};

use crate::past::Past;
use mip_entries::Entry;
use mip_rules_mobile::Attachment;
use mip_settled::mobiles;
use mip_words::{Address, NodeId};

/// Where a node with this own address stands by the address that it uses.
fn standing_by(own: Address, present: Option<Address>) -> Attachment
    ensures { result ≡ standing_by own present }
{
    match present {
        None => Attachment::Detached,
        Some(address) if address.0 == own.0 => Attachment::AtHome,
        Some(careof) => Attachment::Away { careof },
    }
}

/// Nobody else holds an address with this holder.
fn is_free_for(holder: Option<u8>, who: u8) -> bool
    ensures { result ≡ is_free_for holder who }
{
    match holder {
        Some(other) => other == who,
        None => true,
    }
}

/// The address that a node with this own address releases as it leaves from where it stands.
fn leaves_by(past: &Past<'_>, node: NodeId, own: Address, standing: Attachment) -> Option<Address>
    ensures { result ≡ leaves_by node.0 past.now.entries.now own standing }
{
    match standing {
        Attachment::Detached => None,
        Attachment::AtHome => if is_free_for(past.holder(own), node.0) {
            Some(own)
        } else {
            None
        },
        Attachment::Away { careof } => Some(careof),
    }
}

/// One place more, of so many numbers.
fn next_place(places: u8, numbers: u8) -> u8
    requires { 1 ≤ numbers }
    ensures { result ≡ (places + 1) % numbers }
{
    ((u16::from(places) + 1) % u16::from(numbers)) as u8
}

/// The places behind an entry.
fn place_told(numbers: u8, node: NodeId, own: Address, places: u8, entry: &Entry) -> u8
    requires { 1 ≤ numbers }
    ensures { result ≡ place_told numbers node.0 own places entry.now }
{
    match entry {
        Entry::Careof { node: n, address } if node.0 == n.0 && address.0 != own.0 => {
            next_place(places, numbers)
        }
        Entry::Restarted { node: n } if node.0 == n.0 => 0,
        _ => places,
    }
}

/// The places that a node with this own address came to since it last restarted, modulo so many numbers.
fn places(entries: &[Entry], numbers: u8, node: NodeId, own: Address) -> u8
    requires { 1 ≤ numbers }
    ensures { result ≡ fold (place_told numbers node.0 own) 0 entries.now }
{
    let mut places = 0;
    for entry in entries {
        places = place_told(numbers, node, own, places, entry);
    }
    places
}

impl Past<'_> {
    /// The address that a node uses: its own, or a mobile's care-of address; none between two links.
    pub fn present(&self, node: NodeId) -> Option<Address>
        ensures { result ≡ present_at self.now node.0 }
    {
        match self.own_address(node.0) {
            Some(own) => mobiles::present(self.entries, node, own),
            None => None,
        }
    }

    /// Where a node stands: at home, or a mobile away or between two links (RFC 6275 section 11.5).
    pub fn standing(&self, node: NodeId) -> Attachment
        ensures { result ≡ standing_of_node self.now node.0 }
    {
        match self.own_address(node.0) {
            Some(own) => standing_by(own, mobiles::present(self.entries, node, own)),
            None => Attachment::Detached,
        }
    }

    /// The address that a node holds, and releases as it leaves its link: away its care-of address, at home its own where nobody
    /// else holds that (RFC 6275 section 11.5.1).
    pub fn leaves(&self, node: NodeId) -> Option<Address>
        ensures { result ≡ leaves_at self.now node.0 }
    {
        match self.own_address(node.0) {
            Some(own) => {
                let standing = standing_by(own, mobiles::present(self.entries, node, own));
                leaves_by(self, node, own, standing)
            }
            None => None,
        }
    }

    /// The number of the bindings that a mobile asks for, where they may have so many: 1 in a schedule of version 1, 8 in one of
    /// version 2.
    pub fn binding_number(&self, mobile: NodeId, numbers: u8) -> u8
        requires { 1 ≤ numbers }
        ensures { result ≡ binding_number_at self.now mobile.0 numbers }
    {
        match self.own_address(mobile.0) {
            Some(own) => places(self.entries, numbers, mobile, own),
            None => 0,
        }
    }

    /// The agent with which a mobile is registered.
    pub fn agent(&self, mobile: NodeId) -> Option<Address>
        ensures { result ≡ agent_at self.now mobile.0 }
    {
        mobiles::agent(self.entries, self.moment(), mobile)
    }

    /// A mobile has a binding with a peer.
    pub fn is_bound(&self, mobile: NodeId, peer: Address) -> bool
        ensures { result ≡ is_bound_at self.now mobile.0 peer }
    {
        mobiles::is_bound(self.entries, self.moment(), mobile, peer)
    }
}
