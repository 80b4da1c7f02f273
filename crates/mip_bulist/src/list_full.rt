/// Sixteen other peers have rows.
#[derive(Clone, Copy, Debug, PartialEq, Eq)]
pub struct ListFull;
