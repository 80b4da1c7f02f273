ghost use Rattle.std.specs.Prelude.{◌≡◌, ◌≤◌, [], ◌∷◌, length};

use crate::message_bytes::MessageBytes;

/// The first six bytes of a message, with zero for Header Len and checksum. The fields of its kind follow.
#[derive(Drop)]
pub struct Front {
    pub bytes: MessageBytes,
    ghost short: { length bytes ≤ 6 },
}

impl Front {
    /// The front of a message of this MH Type.
    pub fn new(kind: u8) -> Front
        ensures { result.bytes ≡ 59 ∷ 0 ∷ kind ∷ 0 ∷ 0 ∷ 0 ∷ [] }
    {
        let mut bytes = MessageBytes::new();
        bytes.extend(&[59, 0, kind, 0, 0, 0]);
        Front { bytes }
    }
}
