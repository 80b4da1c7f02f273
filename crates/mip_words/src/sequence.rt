ghost use Rattle.std.specs.Prelude.{◌≡◌};
ghost use Rattle.mip_words.specs.Sequence.{is_after};

/// Whether a sequence number is newer than the last one: 1 to 32767 ahead of it, counting round
/// (RFC 6275 section 9.5.1).
pub fn after(new: u16, last: u16) -> bool
    ensures { result ≡ is_after new last }
{
    let step = new.wrapping_sub(last);
    0 < step && step < 0x8000
}
