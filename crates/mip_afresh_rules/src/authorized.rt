ghost use Rattle.std.specs.Prelude.{◌≤◌, length};

use mip_reception::Registration;

/// An update with an authenticator, for which its bytes have room.
#[derive(Clone, Copy)]
pub struct Authorized<'a> {
    pub registration: Registration,
    pub message: &'a [u8],
    pub ghost long: { 18 ≤ length message.now },
}
