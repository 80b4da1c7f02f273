use crate::events::Events;
use mip_symbols::Declarations;
use mip_words::Moment;

/// What a text says, part by part.
#[derive(Drop)]
pub struct Parts {
    pub version: u8,
    pub seed: [u8; 32],
    pub start: Moment,
    pub declarations: Declarations,
    pub events: Events,
}
