use crate::router::Router;
use mip_words::Shield;

/// What a home agent is asked for.
#[derive(Clone, Copy)]
pub(crate) enum AgentCall<'a> {
    /// A packet is handed to it, by its number, its shield and its bytes.
    Take {
        number: u64,
        shield: Option<Shield>,
        packet: &'a [u8],
    },
    /// Time goes on, and due work is done.
    Tick,
    /// Its prefix is valid and preferred for so many seconds.
    Plan {
        valid: u32,
        preferred: u32,
    },
    /// Another home agent advertises itself.
    Hear(Router),
}
