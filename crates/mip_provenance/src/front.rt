ghost use Rattle.std.specs.Prelude.{◌≡◌, ◌≤◌, length, take};

use mip_entries::Entry;

/// A history up to a place in it. What the packets of its entries say is looked for in the whole history.
#[derive(Clone, Copy)]
pub struct Front<'a> {
    pub history: &'a [Entry],
    pub place: usize,
    pub ghost within: { place ≤ length history.now },
}
