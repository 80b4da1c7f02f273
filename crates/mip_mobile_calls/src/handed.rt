use mip_words::Shield;

/// How a packet came: its number, its shield, and whether it came out of a tunnel.
#[derive(Clone, Copy, Debug, PartialEq, Eq)]
pub struct Handed {
    pub number: u64,
    pub shield: Option<Shield>,
    pub tunnelled: bool,
}
