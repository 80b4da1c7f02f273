ghost use Rattle.std.specs.Prelude.{◌≡◌, ◌==◌};
ghost use Rattle.mip_packets.specs.Says.{kind_of};
ghost use Rattle.mip_provenance.specs.Names.{same_name};
ghost use Rattle.mip_provenance.specs.Seen.{name_of};

use mip_packets::TestKind;
use mip_words::{Address, NodeId};

/// The name of a keygen token. Fields lie as they are declared: in this order they take 32 bytes.
#[derive(Clone, Copy)]
pub struct Name {
    /// To which address.
    pub address: Address,
    /// In which of its lives its node sends it.
    pub life: usize,
    /// With which nonce index.
    pub index: u16,
    /// Who sends it.
    pub node: NodeId,
    pub kind: TestKind,
}

fn same_kind(a: TestKind, b: TestKind) -> bool
    ensures { result ≡ (kind_of a == kind_of b) }
{
    match (a, b) {
        (TestKind::Home, TestKind::Home) | (TestKind::Careof, TestKind::Careof) => true,
        _ => false,
    }
}

impl Name {
    /// Whether both are the same name.
    pub fn is(&self, other: &Name) -> bool
        ensures { result ≡ same_name (name_of self.now) (name_of other.now) }
    {
        self.node == other.node
            && self.life == other.life
            && same_kind(self.kind, other.kind)
            && self.address == other.address
            && self.index == other.index
    }
}
