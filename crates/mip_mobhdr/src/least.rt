ghost use Rattle.std.specs.Prelude.{◌≡◌};
ghost use Rattle.mip_mobhdr.specs.Reading.{least_of};

/// The least Header Len of each type of message (RFC 6275 sections 6.1.2 to 6.1.9).
pub fn least_len(kind: u8) -> u8
    ensures { result ≡ least_of kind }
{
    match kind {
        0 => 0,
        1 | 2 | 5 | 6 => 1,
        _ => 2,
    }
}
