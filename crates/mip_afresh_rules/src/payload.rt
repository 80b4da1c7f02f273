ghost use Rattle.std.specs.Prelude.{◌≤◌, IsFalse, length};
ghost use Rattle.mip_ipv6.specs.Packet.{names_no_body};

/// Data that can be sent: its protocol names a body, and it is of 512 bytes at most.
#[derive(Clone, Copy)]
pub struct Payload<'a> {
    pub proto: u8,
    pub bytes: &'a [u8],
    pub ghost named: { IsFalse (names_no_body proto) },
    pub ghost short: { length bytes.now ≤ 512 },
}
