use mip_nonce::Secrets;
use mip_words::{Address, Prefix, Shield};

/// What a node of a run is asked.
#[derive(Drop)]
pub enum Call<'a> {
    /// A packet is handed to it.
    Take {
        number: u64,
        shield: Option<Shield>,
        packet: &'a [u8],
    },
    /// The node is to send data, of 512 bytes at most.
    Send {
        to: Address,
        proto: u8,
        payload: &'a [u8],
    },
    /// The node is to ask for a binding to be refreshed.
    Refresh {
        home: Address,
    },
    /// Time goes on, and due work is done.
    Tick,
    /// The node's prefix is valid and preferred for so many seconds.
    Plan {
        valid: u32,
        preferred: u32,
    },
    /// Another home agent advertises itself, with its preference and for so many seconds.
    Hear {
        agent: Address,
        preference: u16,
        life: u16,
    },
    /// A router advertises a prefix.
    Attach {
        prefix: Prefix,
    },
    /// The node leaves its link.
    Leave,
    /// The node is to solicit the prefixes of its home link.
    Ask,
    /// The node loses all that it keeps, and goes on with these secrets, which stand apart: so every other call is short.
    Restart {
        secrets: Box<Secrets>,
    },
}
