use mip_outside::Claim;
use mip_words::{Address, Bytes, Shield};

/// What a home agent is asked.
#[derive(Drop)]
pub enum Question {
    /// A packet is handed to it, and its place answers so to a claim of the packet's home address.
    Take {
        number: u64,
        shield: Option<Shield>,
        packet: Bytes,
        claim: Claim,
    },
    /// Time goes on.
    Tick,
    /// Its prefix is valid and preferred for so many seconds.
    Plan {
        valid: u32,
        preferred: u32,
    },
    /// Another home agent advertised itself.
    Hear {
        agent: Address,
        preference: u16,
        life: u16,
    },
}
