ghost use Rattle.std.specs.Prelude.{◌<◌, IsTrue};
ghost use Rattle.mip_words.specs.Addresses.{is_routable};

use mip_schedule::UpdateEnds;

/// What the update of an outsider says: its ends, of which the home address is a routable one, its sequence, its lifetime in units of
/// 4 s, and the number of the binding that it asks for.
#[derive(Clone, Copy)]
pub(crate) struct Binding {
    pub ends: UpdateEnds,
    pub sequence: u16,
    pub lifetime: u16,
    pub number: u8,
    ghost routable: { IsTrue (is_routable ends.home.0) },
    ghost few: { number < 8 },
}
