//! A home agent for C, by a handle. Each call has the clauses of the library's own, and asks for nothing that C could break.
#![tactic(auto)]

mod agent_handle;
mod agents;
mod held;
mod neighbourhood;
mod registration_fields;
mod shield_fields;
mod sixteens;
mod station;
mod station_calls;
