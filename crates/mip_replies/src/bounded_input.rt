ghost use Rattle.std.specs.Prelude.{◌≡◌, ◌<◌, ◌≤◌, length, None, IfSome};

use crate::reading::LIMIT;
use mip_words::Bytes;

/// An input that is not too long: it has at most 16,777,216 bytes.
#[derive(Drop)]
pub struct BoundedInput {
    pub bytes: Bytes,
    pub ghost within: { length bytes ≤ 16777216 },
}

impl BoundedInput {
    /// These bytes, if they are not too many.
    pub fn of(bytes: Bytes) -> Option<BoundedInput>
        ensures some { IfSome result (λ input. input.bytes ≡ bytes) }
        ensures none { result ≡ None → 16777216 < length bytes }
    {
        if bytes.len() > LIMIT {
            return None;
        }
        Some(BoundedInput { bytes })
    }
}
