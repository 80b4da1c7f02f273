//! The secrets of a node: its key Kcn, its nonces and its cookies, and which nonces are valid when
//! (RFC 6275 sections 5.2.1, 5.2.2 and 5.2.5).
#![tactic(auto)]

mod cookie_row;
mod kept_token;
mod secrets;
mod source;
mod window;

pub use secrets::Secrets;
pub use window::{by_index, current};
