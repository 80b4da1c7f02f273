use mip_words::{Address, Bytes, Moment, NodeId, Shield};

/// What a correspondent was asked for.
#[derive(Drop)]
pub enum Asked {
    /// To take a packet, by its number, its shield and its bytes.
    Take {
        number: u64,
        shield: Option<Shield>,
        packet: Bytes,
    },
    /// To ask for a binding of this home to be refreshed.
    Refresh(Address),
    /// To send data.
    Send {
        to: Address,
        proto: u8,
        payload: Bytes,
    },
    /// To begin its next life.
    Restart,
}

/// A call of a correspondent, with who it is as it is called.
#[derive(Drop)]
pub struct Acted {
    pub node: NodeId,
    pub own: Address,
    /// How many homes its binding cache keeps.
    pub room: u32,
    /// How often it was restarted.
    pub life: u64,
    pub at: Moment,
    pub asked: Asked,
}
