use mip_words::Shield;

/// How a packet came over the mobile's link: its number and its shield.
#[derive(Clone, Copy, Debug, PartialEq, Eq)]
pub struct Arrival {
    pub number: u64,
    pub shield: Option<Shield>,
}
