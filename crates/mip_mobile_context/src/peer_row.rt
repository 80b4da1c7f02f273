ghost use Rattle.std.specs.Prelude.{◌<◌};

use mip_words::Address;

/// A row of a mobile's list, by its number, and the peer that it is of.
#[derive(Clone, Copy)]
pub struct PeerRow {
    pub row: u8,
    pub peer: Address,
    pub ghost range: { row < 16 },
}
