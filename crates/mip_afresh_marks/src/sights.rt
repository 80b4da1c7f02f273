use crate::post::Post;
use crate::sight::Sight;

/// What is kept of a history for its marks: each entry as a sight, and each packet that was posted, by its number.
#[derive(Drop)]
pub struct Sights {
    pub(crate) seen: Vec<Sight>,
    pub(crate) posts: Vec<Post>,
}
