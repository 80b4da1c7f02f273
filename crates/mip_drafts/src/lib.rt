//! Texts that are read line by line: each line comes onto a draft of what those before it said, or it is the first bad line.
#![tactic(auto)]

mod cursor;
mod draft;
mod reading;

pub use cursor::Cursor;
pub use draft::Draft;
pub use reading::read_lines;
