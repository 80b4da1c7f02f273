/// Two texts differ, in this line first. Lines are counted from 1.
#[derive(Clone, Copy, Debug, PartialEq, Eq)]
pub struct Differs {
    pub line: usize,
}
