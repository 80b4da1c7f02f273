ghost use Rattle.std.specs.Prelude.{◌≤◌, length};

use crate::host::Host;

/// Nodes that a schedule declares: they are few, so that the number of a node is small.
#[derive(Clone, Copy)]
pub(crate) struct FewHosts<'a> {
    pub(crate) list: &'a [Host],
    ghost few: { length list.now ≤ 32 },
}
