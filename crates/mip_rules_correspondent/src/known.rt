use mip_bcache::Cache;
use mip_words::Moment;

/// What a correspondent keeps of its past.
#[derive(Drop)]
pub struct Known {
    /// The moment of the last call that it was given, 0 before the first.
    pub last: Moment,
    /// The correspondent's binding cache.
    pub cache: Cache,
}
