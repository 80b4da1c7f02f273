ghost use Rattle.mip_afresh_marks.specs.Sighting.{AreNumbered};

use crate::sights::Sights;

/// Sights of which each packet stands at its number.
#[derive(Clone, Copy)]
pub struct Numbered<'a> {
    pub sights: &'a Sights,
    pub ghost numbered: { AreNumbered sights.now },
}
