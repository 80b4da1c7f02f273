//! The outside of a node: where bytes come from and go to, the clock, the link, the wire and the place, each as a trait
//! with forms in memory. Source, sink and clock have real ones too.
#![tactic(auto)]

mod asked;
mod buffered;
mod claim;
mod clock;
mod failed;
mod faults;
mod link;
mod link_call;
mod memory;
mod place;
mod put;
mod put_fault;
mod real;
mod sink;
mod source;
mod wire;

pub use asked::Asked;
pub use buffered::Buffered;
pub use claim::Claim;
pub use clock::Clock;
pub use failed::Failed;
pub use link::Link;
pub use link_call::LinkCall;
pub use memory::{
    FreePlace, Outbox, SetClock, SureLink, SureSink, SureSource, TextSink, TextSource,
};
pub use place::Place;
pub use put::Put;
pub use put_fault::PutFault;
pub use real::{MonotoneClock, StdSink, StdSource};
pub use sink::Sink;
pub use source::Source;
pub use wire::Wire;
