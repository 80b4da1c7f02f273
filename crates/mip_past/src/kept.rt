use crate::made::Made;

/// What a node keeps of a home: the last sequence, to this moment at least; and of the bindings that live, the one that ended the
/// others by naming the home, and the one of a number.
#[derive(Clone, Copy)]
pub struct Kept {
    pub sequence: u16,
    pub least: u128,
    pub deletion: Option<Made>,
    pub under: Option<Made>,
}
