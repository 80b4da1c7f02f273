ghost use Rattle.std.specs.Prelude.{◌≡◌, ◌≤◌, length};
ghost use Rattle.mip_icmp.specs.Options.{agent_at};

use mip_words::u16_at;

/// What a Home Agent Information option says (RFC 6275 section 7.4).
#[derive(Clone, Copy, Debug, PartialEq, Eq)]
pub struct AgentInfo {
    /// The greater, the more preferred.
    pub preference: u16,
    /// How long the router serves as a home agent, in seconds.
    pub life: u16,
}

impl AgentInfo {
    /// What the option says that begins these bytes.
    pub(crate) fn at(option: &[u8]) -> AgentInfo
        requires { 8 ≤ length option.now }
        ensures { result ≡ agent_at option.now }
    {
        AgentInfo {
            preference: u16_at(option, 4),
            life: u16_at(option, 6),
        }
    }
}
