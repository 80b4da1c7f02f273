use mip_words::Moment;

/// What a filled slot has.
#[derive(Drop)]
pub struct Entry<T> {
    pub due: Moment,
    pub value: T,
}
