ghost use Rattle.std.specs.Prelude.{◌≤◌, length};

use crate::field_kind::Kind;
use crate::tail::Tail;

/// The form of a row: the kinds of its values, of which there are 10 at most, and its tail.
#[derive(Clone, Copy)]
pub struct RowForm<'a> {
    pub kinds: &'a [Kind],
    pub tail: Tail,
    pub ghost room: { length kinds.now ≤ 10 },
}
