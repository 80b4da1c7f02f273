use mip_outside::Claim;
use mip_rules_agent::Identity;
use mip_words::Shield;

/// A packet that is handed to an agent.
#[derive(Clone, Copy)]
pub struct Handed<'a> {
    pub me: &'a Identity,
    pub number: u64,
    pub shield: Option<Shield>,
    pub bytes: &'a [u8],
    /// What the place answers to a claim of the packet's home address.
    pub claim: Claim,
}
