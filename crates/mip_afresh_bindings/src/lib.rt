//! What a correspondent keeps of its homes (RFC 6275 section 9.1), asked of the entries of its present life: nothing is kept beside
//! them.
#![tactic(auto)]

mod acceptance;
mod bound;
mod home;
mod kept;
mod laws;
mod lived;
mod ordered;
mod room;
mod row;
mod shown;

pub use acceptance::Acceptance;
pub use bound::{floor, held, holds};
pub use kept::kept_of;
pub use laws::kept_is_as_known;
pub use lived::accepted_by;
pub use room::is_full;
pub use row::Row;
pub use shown::shown_rows;
