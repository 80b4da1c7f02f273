ghost use Rattle.std.specs.Prelude.{◌≡◌, ◌<◌, ◌-◌, ◌^◌};
ghost use Rattle.mip_mobhdr.specs.Pointer.{pointer_of};

use crate::bad_option::BadOption;

/// Why a message is refused: the first of these that applies.
#[derive(Clone, Copy, Debug, PartialEq, Eq)]
pub enum Fault {
    /// The message has fewer than 8 bytes, or not as many as Header Len says.
    Size,
    /// The checksum does not hold.
    Checksum,
    /// The MH Type is above 7.
    Unknown(u8),
    /// Payload Proto is not 59, No Next Header.
    Proto,
    /// Header Len is below the least of the message's type.
    HeaderLen,
    /// The mobility option at this place may not stand there.
    Option { place: usize },
}

impl Fault {
    /// The place of the field at fault, which a Parameter Problem points to, of a message that begins at this place of its packet
    /// (RFC 6275 section 9.2). No other fault than that of Payload Proto and of Header Len has one.
    pub fn pointer(&self, place: usize) -> Option<usize>
        requires { place < 2 ^ 64 - 1 }
        ensures { result ≡ pointer_of place self.now }
    {
        match self {
            Fault::Proto => Some(place),
            Fault::HeaderLen => Some(place + 1),
            Fault::Size | Fault::Checksum | Fault::Unknown(_) | Fault::Option { .. } => None,
        }
    }
}

impl From<BadOption> for Fault {
    ghost use Rattle.mip_mobhdr.specs.declared.fault.Fault.TheVariants as faults;

    ghost from_gives = { λ b e. e ≡ faults.Option b.place };

    fn from(bad: BadOption) -> Fault {
        Fault::Option { place: bad.place }
    }
}
