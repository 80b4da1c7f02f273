use mip_words::{Address, Bytes};

/// Data that the node sends to an address in a turn, counted from 1.
#[derive(Drop)]
pub struct Payload {
    pub turn: u32,
    pub to: Address,
    pub proto: u8,
    pub payload: Bytes,
}
