//! Mobiles that are at home.

ghost use Rattle.std.specs.Prelude.{◌≡◌, Option, Some, IfOk, slice_get};
ghost use Rattle.mip_words.specs.declared.address.Address.{Address};
ghost use Rattle.mip_history.specs.Setup.Kind.{Mobile};
ghost use Rattle.mip_history.specs.Knowing.{mobile_known_in};
ghost use Rattle.mip_history.specs.Homes.{is_at_home, lives_at, resident};

use crate::kind::Kind;
use crate::role::Role;
use crate::telling::Telling;
use mip_rules_mobile::Attachment;
use mip_words::{Address, Memory, NodeId};

/// The mobile uses its home address.
fn is_at_home(standing: Attachment) -> bool
    ensures { result ≡ is_at_home standing }
{
    matches!(standing, Attachment::AtHome)
}

impl Telling {
    /// A mobile with this home address is at home. One that was taken out is answered as if memory had run out.
    fn is_home(&self, node: NodeId) -> Result<bool, Memory>
        ensures { (own : Address) (agent : Option Address) → slice_get self.now.setup.hosts node.0 ≡ Some (record { address = own; kind = Mobile agent })
            → IfOk result (λ b. b ≡ is_at_home (mobile_known_in self.now.setup self.now.run node.0 own agent).standing) }
    {
        match self.role(node) {
            Some(Role::Mobile(mobile)) => Ok(is_at_home(mobile.standing())),
            _ => Err(Memory),
        }
    }

    /// A node is a mobile at home, and this is its home address.
    fn lives_at(&self, node: NodeId, address: Address) -> Result<bool, Memory>
        ensures { IfOk result (λ b. b ≡ lives_at self.now.setup self.now.run address.0 node.0) }
    {
        match self.host(node) {
            Some(host) if host.address.0 == address.0 => match host.kind {
                Kind::Mobile { .. } => self.is_home(node),
                _ => Ok(false),
            },
            _ => Ok(false),
        }
    }

    /// The mobile at home whose home address this is.
    pub(crate) fn resident(&self, address: Address) -> Result<Option<u8>, Memory>
        ensures { IfOk result (λ o. o ≡ resident self.now.setup self.now.run address.0) }
    {
        for node in 0..self.count() {
            if self.lives_at(NodeId(node), address)? {
                return Ok(Some(node));
            }
        }
        Ok(None)
    }
}
