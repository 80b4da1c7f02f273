//! The configuration of one node that is run over a link: its text, read.
#![tactic(auto)]

mod config;
mod config_draft;
mod config_reading;
mod head;
mod payload;
mod role;
mod rows;

pub use config::Config;
pub use config_reading::read_config;
pub use head::port_line;
pub use payload::Payload;
pub use role::Role;
pub use rows::port;
