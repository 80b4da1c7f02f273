use crate::values::Values;
use mip_words::Bytes;

/// A row as it is read: its values in order, and the bytes of its tail; none, where it has no tail.
#[derive(Drop)]
pub struct Row {
    pub values: Values,
    pub bytes: Bytes,
}
