//! IPv6 packets and the checksum of what they carry (RFC 8200), with the routing header and the Home Address
//! option of Mobile IPv6 (RFC 6275 sections 6.3 and 6.4), and packets inside packets: both ends of a tunnel (RFC 2473).
#![tactic(auto)]

mod entry_fault;
mod exit_fault;
mod head;
mod lowering;
mod not_packet;
mod options;
mod packet_ref;
mod reading;
mod sum;
mod tunnel_entry;
mod tunnel_exit;
mod walked;
mod write_fault;
mod writing;

pub use entry_fault::EntryFault;
pub use exit_fault::ExitFault;
pub use head::Head;
pub use lowering::lower;
pub use not_packet::NotPacket;
pub use packet_ref::PacketRef;
pub use reading::read_packet;
pub use sum::{checksum, checksum_holds};
pub use tunnel_entry::encapsulate;
pub use tunnel_exit::decapsulate;
pub use write_fault::WriteFault;
pub use writing::write_packet;
