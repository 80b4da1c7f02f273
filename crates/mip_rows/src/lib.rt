//! Rows of fields: a line of a text as a word, values of stated kinds, and bytes.
#![tactic(auto)]

mod fault;
mod field_kind;
mod field_reading;
mod field_writing;
mod name_table;
mod numbered;
mod packet_kind;
mod row;
mod row_form;
mod row_reading;
mod row_writing;
mod tail;
mod value;
mod values;
mod why_words;

pub use fault::RowFault;
pub use field_kind::Kind;
pub use name_table::NameTable;
pub use packet_kind::kind;
pub use row::Row;
pub use row_form::RowForm;
pub use row_reading::read_row;
pub use row_writing::put_row;
pub use tail::Tail;
pub use value::Value;
pub use values::Values;
