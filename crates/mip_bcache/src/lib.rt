//! The binding cache of a correspondent (RFC 6275 section 9.1): what the updates that were accepted
//! leave, home by home in order of address, each home's rows under numbers of its own.
#![tactic(auto)]

mod accepted;
mod cache;
mod fault;
mod home;
mod row;
mod table;

pub use accepted::Accepted;
pub use cache::Cache;
pub use fault::AcceptFault;
pub use row::Row;
