/// The number of a slot of a chain, below its room. Any other number counts as an empty slot.
#[derive(Clone, Copy, Debug, PartialEq, Eq)]
pub struct Slot(pub u32);
