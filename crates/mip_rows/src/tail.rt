ghost use Rattle.std.specs.Prelude.{◌≡◌};
ghost use Rattle.mip_rows.specs.Rows.{tail_count};

/// What stands behind the values of a row: bytes, always in the last field and read after all others, so that a line that
/// is refused for another field takes no memory for them.
#[derive(Clone, Copy)]
pub enum Tail {
    /// No field.
    Nothing,
    /// The bytes, in hexadecimal digits; `-` for none.
    Bytes,
    /// The word for the kind of a packet, and its bytes.
    Packet,
}

impl Tail {
    /// How many fields the tail has.
    pub fn count(self) -> usize
        ensures { result ≡ tail_count self }
    {
        match self {
            Tail::Nothing => 0,
            Tail::Bytes => 1,
            Tail::Packet => 2,
        }
    }
}
