//! A correspondent node for C, by a handle. Each call has the clauses of the library's own, and asks for nothing that C could
//! break.
#![tactic(auto)]

mod correspondent_handle;
mod correspondents;
mod held;
mod row_fields;
mod station;
mod station_calls;
