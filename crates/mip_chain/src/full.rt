/// Every slot of a chain is filled. The value that had no room comes back.
#[derive(Debug, Drop)]
pub struct Full<T> {
    pub value: T,
}
