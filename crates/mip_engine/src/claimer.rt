ghost use Rattle.std.specs.Prelude.{◌<◌};
ghost use Rattle.mip_words.specs.Holders.{holder_number};

use mip_words::Holder;

/// Somebody of a run who may claim an address: one of at most 32 nodes or of at most 8 outsiders.
#[derive(Clone, Copy)]
pub(crate) struct Claimer {
    pub who: Holder,
    ghost few: { holder_number who < 40 },
}
