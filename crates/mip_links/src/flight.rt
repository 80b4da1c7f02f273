use mip_words::{LinkId, Shield};

/// The link that a packet was sent from, and its shield.
#[derive(Clone, Copy, Debug, PartialEq, Eq)]
pub struct Flight {
    pub from: LinkId,
    pub shield: Option<Shield>,
}
