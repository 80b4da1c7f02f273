use crate::question::Question;
use mip_words::Moment;

/// A question, and when it came.
#[derive(Drop)]
pub struct Asked {
    pub at: Moment,
    pub question: Question,
}
