ghost use Rattle.std.specs.Prelude.{◌≡◌, ◌<◌, IsTrue};
ghost use Rattle.mip_words.specs.Addresses.{is_routable};

use mip_bulist::Made;
use mip_tokens::PreparedKbm;
use mip_words::Address;

/// An update to a peer that is about to be sent: in whose name, from where, with which number, what was made for it, and the key of
/// its tests.
#[derive(Clone, Copy)]
pub struct KeyedUpdate<'a> {
    pub home: Address,
    pub source: Address,
    pub peer: Address,
    pub number: u8,
    pub made: &'a Made,
    pub kbm: &'a PreparedKbm,
    pub ghost routable: { IsTrue (is_routable home.0) },
    pub ghost few: { number < 8 },
    pub ghost key: { kbm.now ≡ made.now.kbm },
}
