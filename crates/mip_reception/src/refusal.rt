use crate::reply::Reply;
use mip_words::Why;

/// Why a packet is refused, and what goes back to its source.
#[derive(Clone, Copy, Debug, PartialEq, Eq)]
pub struct Refusal {
    pub why: Why,
    pub reply: Reply,
}
