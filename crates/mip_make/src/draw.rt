/// The two words that an event is made of.
#[derive(Clone, Copy)]
pub struct Draw {
    pub x: u32,
    pub y: u32,
}
