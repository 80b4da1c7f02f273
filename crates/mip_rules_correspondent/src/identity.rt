use mip_nonce::Secrets;
use mip_words::Address;

/// What a correspondent was made with.
#[derive(Drop)]
pub struct Identity {
    /// The correspondent's own address.
    pub own: Address,
    /// The secrets of its present life.
    pub secrets: Secrets,
    /// How many homes its binding cache keeps.
    pub room: u32,
}
