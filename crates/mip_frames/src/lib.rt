//! What a node needs to be run over UDP: frames, the routes that they take, a wire that sends packets in frames, and two links:
//! one in memory that fails at chosen calls, and the system's.
#![tactic(auto)]

mod calls;
mod faults;
mod frame;
mod frames;
mod list_link;
mod reading;
mod route;
mod routes;
mod sending;
mod served;
mod udp_link;
mod writing;

pub use frame::Frame;
pub use frames::Frames;
pub use list_link::ListLink;
pub use reading::{read_frame, read_frame_for};
pub use route::Route;
pub use routes::Routes;
pub use sending::send_frame;
pub use served::Served;
pub use udp_link::UdpLink;
pub use writing::{LONGEST_FRAME, write_frame};
