ghost use Rattle.std.specs.Prelude.{◌≡◌, ◌<◌, true};
ghost use Rattle.mip_words.specs.Addresses.{is_routable};

use mip_words::Address;

/// What the update of an outsider says: its addresses, its sequence, its lifetime in units of 4 s, and the number of the
/// binding that it asks for. The home address is a routable one.
#[derive(Clone, Copy)]
pub(crate) struct Binding {
    pub source: Address,
    pub peer: Address,
    pub home: Address,
    pub careof: Address,
    pub sequence: u16,
    pub lifetime: u16,
    pub number: u8,
    ghost home_routable: { is_routable home.0 ≡ true },
    ghost number_few: { number < 8 },
}
