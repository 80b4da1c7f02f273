//! A history as it goes on, and the marks of its acceptances, each looked up in indexes that go along.
#![tactic(auto)]

mod kept_token;
mod packet_tokens;
mod packets;
mod recorder;

pub use recorder::Recorder;
