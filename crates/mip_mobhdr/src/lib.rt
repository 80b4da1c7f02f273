//! The messages of the Mobility Header (RFC 6275 section 6.1), one module for each kind, and the mobility options that
//! they carry behind their fixed fields (section 6.2).
#![tactic(auto)]

mod acknowledgement;
mod address_test;
mod alignment;
mod bad_option;
mod binding_error;
mod fault;
mod front;
mod indices;
mod least;
mod message;
mod message_bytes;
mod option_reading;
mod option_set;
mod option_writing;
mod options;
mod padding;
mod plain;
mod reading;
mod refresh;
mod start;
mod test_init;
mod update;
mod writing;

pub use bad_option::BadOption;
pub use fault::Fault;
pub use indices::Indices;
pub use message::Message;
pub use message_bytes::MessageBytes;
pub use option_reading::read_options;
pub use option_set::OptionSet;
pub use option_writing::write_options;
pub use options::Options;
pub use plain::Plain;
pub use reading::read_message;
pub use update::read_update;
pub use writing::{spell_message, write_message};
