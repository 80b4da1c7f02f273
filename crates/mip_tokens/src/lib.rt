//! Return routability's keyed values: keygen tokens, the binding management key and the authenticator
//! of an update (RFC 6275 sections 5.2.5, 5.2.6 and 6.2.7), and HMAC-SHA1 (RFC 2104), by which they are made.
#![tactic(auto)]

mod authorization;
mod kbm;
mod kept_kbm;
mod keyed;
mod keygen;
mod prepared_kbm;
mod prepared_key;
mod witness;

pub use authorization::{authentic, authenticator, covered};
pub use kbm::Kbm;
pub use kept_kbm::KeptKbm;
pub use keyed::{hmac, hmac_of_parts};
pub use keygen::{careof_token, home_token};
pub use prepared_kbm::PreparedKbm;
pub use prepared_key::PreparedKey;
pub use witness::Witness;
