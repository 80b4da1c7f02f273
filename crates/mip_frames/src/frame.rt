use mip_words::Shield;

/// What a frame carries: a packet, and the shield that it is under.
#[derive(Clone, Copy, Debug)]
pub struct Frame<'a> {
    pub shield: Option<Shield>,
    pub packet: &'a [u8],
}
