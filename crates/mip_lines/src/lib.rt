//! Lines of text: fields between single spaces, decimal numbers, bytes in hexadecimal digits, and rows
//! of fields.
#![tactic(auto)]

mod cutting;
mod decimals;
mod hex_fields;
mod writing;

pub use cutting::{FewFields, cut_at, few_fields, fields, fields_up_to};
pub use decimals::{number, put_number};
pub use hex_fields::{hex_address, hex_bytes, hex_u64, put_address, put_hex_text};
pub use writing::{put_line, put_line_hex};
