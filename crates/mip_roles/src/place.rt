//! What a node of a network finds as it claims addresses.

ghost use Rattle.std.specs.Prelude.{◌≡◌, ◌<◌, IfSome, None, option_map};
ghost use Rattle.mip_words.specs.Holders.{holder_number};
ghost use Rattle.mip_outside.specs.Places.{claim_in, is_home, claim_of};
ghost use Rattle.mip_history.specs.Knowing.{other_than};
ghost use Rattle.mip_roles.specs.Places.{around_of, around_seen};

use mip_links::Net;
use mip_outside::{Claim, Place};
use mip_words::{Address, Holder};

/// A place that answers as the table of claims of a network stands. It only reads: the run writes a claim where its entry is
/// left.
#[derive(Drop)]
pub struct NetPlace<'a> {
    net: &'a Net,
    node: u8,
    /// The home address, where the node is a mobile.
    home: Option<Address>,
}

/// The number of the holder of an address, where that is not this node.
fn other_than(node: u8, holder: Option<Holder>) -> Option<u8>
    requires { IfSome holder (λ h. holder_number h < 256) }
    ensures { result ≡ other_than node (option_map holder_number holder) }
{
    let by = holder?.number();
    if by == node { None } else { Some(by) }
}

impl<'a> NetPlace<'a> {
    pub fn new(net: &'a Net, node: u8, home: Option<Address>) -> NetPlace<'a>
        ensures { around_seen result ≡ around_of net.now node (option_map (λ a. a.0) home) }
    {
        NetPlace { net, node, home }
    }

    /// What a claim of an address is answered.
    pub fn answer(&self, address: Address) -> Claim
        ensures { result ≡ claim_in (around_seen self.now) address.0 }
    {
        let other = other_than(self.node, self.net.holder(address));
        let at_home = is_home(self.home, address);
        claim_of(other, at_home)
    }
}

impl<'a> Place for NetPlace<'a> {
    ghost around = { λ p. around_seen p };

    ghost claims = { λ _. None };

    ghost is_same = { λ _ _. Unit {0} };

    ghost same_self = { λ _. tt };

    ghost same_since = { λ _ _ _ _ _. tt };

    fn claim(&mut self, address: Address) -> Claim {
        self.answer(address)
    }

    fn release(&mut self, _address: Address) {}
}

fn is_home(home: Option<Address>, address: Address) -> bool
    ensures { result ≡ is_home (option_map (λ a. a.0) home) address.0 }
{
    match home {
        Some(home) => home.0 == address.0,
        None => false,
    }
}

fn claim_of(other: Option<u8>, at_home: bool) -> Claim
    ensures { result ≡ claim_of other at_home }
{
    match other {
        None => Claim::Held,
        Some(_) if at_home => Claim::Waiting,
        Some(by) => Claim::Taken { by },
    }
}
