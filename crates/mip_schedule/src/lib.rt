//! The schedule of a run: its text, read and written.
#![tactic(auto)]

mod declaration_line;
mod declaration_lines;
mod declaration_rows;
mod declaration_writing;
mod event;
mod event_line;
mod event_lines;
mod event_queue;
mod event_rows;
mod event_writing;
mod events;
mod fault;
mod field_writing;
mod head;
mod kept_address;
mod kept_bytes;
mod kept_ends;
mod kept_room;
mod laws;
mod outsider_rows;
mod outsider_writing;
mod parts;
mod schedule;
mod schedule_reading;
mod sums;
mod update_ends;
mod versions;
mod writing;

pub use event::Event;
pub use event_line::is_reserved;
pub use event_queue::EventQueue;
pub use events::Events;
pub use fault::ScheduleFault;
pub use head::{head_field, seed_line, version_line};
pub use kept_address::KeptAddress;
pub use kept_bytes::KeptBytes;
pub use kept_ends::KeptEnds;
pub use laws::{few, lawful, names_found, spelling_read, waits_are_short};
pub use mip_symbols::{Declaration, Declarations, Name, Reason};
pub use schedule::Schedule;
pub use schedule_reading::read_schedule;
pub use update_ends::UpdateEnds;
pub use versions::{is_numbered, numbers_of};
pub use writing::write_schedule;
