//! A mobile moves (RFC 6275 section 11.5.1).

ghost use Rattle.std.specs.Prelude.{◌≡◌, OnOk, option_map};
ghost use Rattle.mip_history.specs.Calls.{Leave};
ghost use Rattle.mip_history.specs.Nodes.{acts};
ghost use Rattle.mip_history.specs.Setup.{is_mobile_at};
ghost use Rattle.mip_history.specs.Permitted.{moves, moves_if};
ghost use Rattle.mip_afresh.specs.Tellings.{with_run};

use crate::mobile_call::MobileCall;
use crate::mobiles::ask_mobile;
use mip_afresh::{Kind, Role, Telling};
use mip_entries::Entry;
use mip_words::{LinkId, Memory, NodeId};
use std::alloc::Global;

/// A node is a mobile.
pub(crate) fn is_mobile(telling: &Telling, node: NodeId) -> bool
    ensures { result ≡ is_mobile_at telling.now.setup node.0 }
{
    match telling.host(node) {
        Some(host) => matches!(host.kind, Kind::Mobile { .. }),
        None => false,
    }
}

/// A mobile leaves its link. A node that is none is answered as if memory had run out.
fn leave(alloc: Global, telling: &mut Telling, node: NodeId) -> Result<(), Memory>
    ensures { OnOk result (telling.new ≡ with_run (acts telling.old.setup node.0 Leave telling.old.run) telling.old) }
{
    match telling.take_role(node) {
        Role::Mobile(mobile) => ask_mobile(alloc, telling, node, mobile, MobileCall::Leave),
        Role::Agent(_agent) => Err(Memory),
        Role::Plain => Err(Memory),
    }
}

/// A mobile leaves where it is, and stands on a link or on none; only a mobile moves.
pub fn move_to(
    alloc: Global,
    telling: &mut Telling,
    node: NodeId,
    link: Option<LinkId>,
) -> Result<(), Memory>
    ensures { OnOk result (telling.new ≡ with_run (moves_if telling.old.setup telling.old.run node.0 link) telling.old) }
{
    if !is_mobile(telling, node) {
        return telling.idle();
    }
    leave(alloc, telling, node)?;
    telling.note(Entry::Moved { node, link })
}
