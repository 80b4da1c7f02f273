ghost use Rattle.std.specs.Prelude.{◌≡◌};
ghost use Rattle.mip_history.specs.Setup.{addresses_in};

use mip_schedule::Declaration;
use mip_words::Address;

/// What a schedule declares, and the address of each node of it.
#[derive(Clone, Copy)]
pub(crate) struct Declared<'a> {
    pub all: &'a [Declaration],
    pub addresses: &'a [Address],
    ghost are: { addresses.now ≡ addresses_in all.now },
}
