use crate::entry::Entry;

/// A place of the ring: the places of its neighbours, and what its slot has. The head has no slot. Of an empty slot `after`
/// is the next one on the list of those that are free, 0 at its end.
#[derive(Drop)]
pub struct Cell<T> {
    pub before: u32,
    pub after: u32,
    pub entry: Option<Entry<T>>,
}
