//! The version of the library that is linked.

ghost use Rattle.std.specs.Prelude.{◌≡◌};

/// The version: 100 for each step of its first number, and one for each of its second.
pub const VERSION: u32 = 100;

/// The version of the library: the first number times 100, and the second.
#[unsafe(no_mangle)]
pub extern "C" fn mip_version() -> u32
    ensures { result ≡ 100 }
{
    VERSION
}
