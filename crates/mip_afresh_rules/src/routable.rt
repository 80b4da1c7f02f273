ghost use Rattle.std.specs.Prelude.{IsTrue};
ghost use Rattle.mip_words.specs.Addresses.{is_routable};

use mip_words::Address;

/// An address to which packets can go through routers.
#[derive(Clone, Copy)]
pub struct Routable {
    pub address: Address,
    pub ghost routable: { IsTrue (is_routable address.0) },
}
