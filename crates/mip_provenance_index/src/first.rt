use mip_provenance::Maker;

/// The first packet of an update.
#[derive(Clone, Copy)]
pub struct First {
    pub number: u64,
    pub maker: Maker,
    /// How many tests had been heard when it was posted.
    pub heard: usize,
}
