use mip_afresh_rules::Kept;
use mip_words::Shield;

/// How a packet came to a mobile, and what the mobile's correspondent part keeps of what the packet asks.
#[derive(Clone, Copy)]
pub struct Handed {
    pub number: u64,
    pub shield: Option<Shield>,
    /// It came out of a tunnel.
    pub tunnelled: bool,
    pub kept: Kept,
}
