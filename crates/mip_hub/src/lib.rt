//! A hub: it passes frames between the ports of nodes, by turns that its configuration tells.
#![tactic(auto)]

mod adverts;
mod doing;
mod hub;
mod hub_config;
mod hub_line;
mod hub_lines;
mod hub_reading;
mod laws;
mod line_rows;
mod passing;
mod passing_on;
mod port_row;
mod ports;
mod sending;
mod serving;
mod telling;
mod turning;

pub use hub_config::HubConfig;
pub use hub_line::HubLine;
pub use hub_lines::HubLines;
pub use hub_reading::read_hub;
pub use laws::{
    frames_go_once, frames_pass_as_they_came, last_lines_count, routers_are_advertised,
};
pub use serving::serve_hub;
