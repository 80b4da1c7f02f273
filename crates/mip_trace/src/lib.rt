//! The trace: a line for each entry of a history, written and read.
#![tactic(auto)]

mod claim_entries;
mod entry_kinds;
mod entry_reading;
mod entry_word;
mod fate_entries;
mod fault;
mod kept_entries;
mod line_writing;
mod mobile_entries;
mod outsider_entries;
mod packet_entries;
mod peer_entries;
mod place_entries;
mod reading;
mod run_entries;
mod update_entries;
mod writing;

pub use fault::TraceFault;
pub use mip_rows::{NameTable, kind};
pub use reading::read_trace;
pub use writing::{entry_line, write_entry, write_trace};
