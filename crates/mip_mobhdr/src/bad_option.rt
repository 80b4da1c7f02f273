/// A mobility option that may not stand where it does, at this place in the message.
#[derive(Clone, Copy, Debug, PartialEq, Eq)]
pub struct BadOption {
    pub place: usize,
}
