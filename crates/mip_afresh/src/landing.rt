use crate::fate::Fate;
use mip_words::{Bytes, LinkId, Shield};

/// What a packet comes to.
#[derive(Drop)]
pub(crate) struct Landing {
    pub(crate) fate: Fate,
    pub(crate) shield: Option<Shield>,
    /// The link that it comes to, where that is another one than it was sent from.
    pub(crate) link: Option<LinkId>,
    /// As it is handed over.
    pub(crate) packet: Bytes,
}
