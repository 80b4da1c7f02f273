ghost use Rattle.std.specs.Prelude.{◌≤◌, length};

/// The bytes of a packet, its fixed header at least (RFC 8200 section 3).
#[derive(Clone, Copy)]
pub struct PacketBytes<'a> {
    pub bytes: &'a [u8],
    pub ghost headed: { 40 ≤ length bytes.now },
}
