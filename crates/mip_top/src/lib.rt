//! The program, over any source, sink, clock and link: what its words ask for is done, and its status says how that ended.
#![tactic(auto)]

mod ending;
mod given;
mod hub;
mod in_memory;
mod node;
mod output;
mod process;
mod top;

pub use ending::mip_flushed;
pub use given::room_for;
pub use in_memory::mip_in_memory;
pub use output::Output;
pub use process::run;
pub use top::mip;
