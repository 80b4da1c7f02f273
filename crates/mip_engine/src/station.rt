ghost use Rattle.std.specs.Prelude.{◌<◌};

use mip_words::{LinkId, NodeId};

/// A node of a run, and the link that it sends from.
#[derive(Clone, Copy)]
pub(crate) struct Station {
    pub node: NodeId,
    pub from: LinkId,
    ghost few: { node.0 < 40 },
}
