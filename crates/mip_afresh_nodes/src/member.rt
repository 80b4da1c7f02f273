ghost use Rattle.std.specs.Prelude.{◌≡◌, IfOk, IfSome, option_map, slice_get};
ghost use Rattle.mip_history.specs.Knowing.{identity_in};
ghost use Rattle.mip_afresh_nodes.specs.Members.{host_of};

use mip_afresh::{Kind, Telling};
use mip_nonce::Secrets;
use mip_rules_correspondent::Identity;
use mip_words::{Address, Memory, NodeId};

/// A correspondent of a run: its number, and what is declared of it.
#[derive(Clone, Copy, Debug, PartialEq, Eq)]
pub(crate) struct Member {
    pub(crate) node: NodeId,
    pub(crate) own: Address,
    /// How many homes its binding cache keeps.
    pub(crate) room: u32,
}

/// The correspondent with this number, where a node is declared. A home agent or a mobile is answered as if memory had run out: it
/// has a role of its own.
pub(crate) fn member_of(telling: &Telling, node: NodeId) -> Result<Option<Member>, Memory>
    ensures host { IfOk result (λ o. option_map host_of o ≡ slice_get telling.now.setup.hosts node.0) }
    ensures node { IfOk result (λ o. IfSome o (λ m. m.node ≡ node)) }
{
    match telling.host(node) {
        None => Ok(None),
        Some(host) => match host.kind {
            Kind::Correspondent { room } => Ok(Some(Member {
                node,
                own: host.address,
                room,
            })),
            _ => Err(Memory),
        },
    }
}

/// A life as secrets count it, by 32 bits. A node of more lives is answered as if memory had run out.
pub(crate) fn counted(life: u64) -> Result<u32, Memory>
    ensures { IfOk result (λ n. n ≡ life) }
{
    match u32::try_from(life) {
        Ok(life) => Ok(life),
        Err(_) => Err(Memory),
    }
}

/// Who a correspondent is in its present life.
pub(crate) fn identity(telling: &Telling, member: Member) -> Result<Identity, Memory>
    ensures { IfOk result (λ me. me ≡ identity_in telling.now.setup telling.now.run member.node.0 member.own member.room) }
{
    let life = counted(telling.life(member.node))?;
    Ok(Identity {
        own: member.own,
        secrets: Secrets::new(telling.seed(), member.node, life),
        room: member.room,
    })
}
