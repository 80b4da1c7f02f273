/// A call failed outside this program.
#[derive(Clone, Copy, Debug, PartialEq, Eq)]
pub struct Failed;
