use mip_afresh_bindings::Acceptance;
use mip_words::Shield;

/// A packet as it arrives, and the updates that the mobile's correspondent part accepted in its present life.
#[derive(Clone, Copy)]
pub struct Arrival<'a> {
    pub number: u64,
    pub shield: Option<Shield>,
    /// How many bindings the part has for each home.
    pub numbers: u8,
    pub accepted: &'a [Acceptance],
}
