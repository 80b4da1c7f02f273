ghost use Rattle.std.specs.Prelude.{◌≡◌};
ghost use Rattle.mip_icmp.specs.Options.{set_of};
ghost use Rattle.mip_icmp.specs.Said.{said};
ghost use Rattle.mip_c_icmp.specs.Icmps.{blank, with_options, preference_of, life_of, fields_of, fault_status, fault_fields};

use crate::prefix_fields::{PrefixFields, no_prefix, prefix_fields};
use mip_c_words::status::{ICMP_CHECKSUM, ICMP_OPTION, ICMP_SHORT, ICMP_TYPE};
use mip_icmp::{AgentInfo, Icmp, IcmpFault, IcmpOptions};

/// A message of ICMPv6 (RFC 4443 section 3.4, RFC 4861 section 4.2, RFC 6275 sections 6.5 to 6.8). A field that its kind does
/// not have is 0.
#[repr(C)]
#[derive(Clone, Copy)]
pub struct IcmpFields {
    /// 4 Parameter Problem, 134 Router Advertisement, 144 and 145 Home Agent Address Discovery Request and Reply, 146 Mobile
    /// Prefix Solicitation, 147 Mobile Prefix Advertisement.
    pub kind: u8,
    /// The code that `MIP_ICMP_TYPE` refuses, else 0.
    pub code: u8,
    /// Of 4: where the field that is wrong lies in the packet that is quoted.
    pub pointer: u32,
    /// Of 134: the hop limit that the link proposes.
    pub hop: u8,
    /// Of 134: flag H, the router is a home agent.
    pub agent: bool,
    /// Of 134: how long the router serves as a default router, in seconds.
    pub life: u16,
    /// Of 144 to 147.
    pub identifier: u16,
    /// Where in the body the packet that is quoted (4), the agents' addresses of 16 bytes each (145) or the options (134, 147)
    /// begin. They reach to its end.
    pub rest: usize,
    /// Of 134 and 147: whether there is a Prefix Information.
    pub has_prefix: bool,
    /// The first whose prefix has 64 bits, or the first.
    pub prefix: PrefixFields,
    /// Of 134 and 147: whether there is an Advertisement Interval.
    pub has_interval: bool,
    /// The greatest time between two advertisements, in milliseconds.
    pub interval: u32,
    /// Of 134 and 147: whether there is a Home Agent Information (RFC 6275 section 7.4).
    pub has_agent_info: bool,
    /// The greater, the more preferred.
    pub preference: u16,
    /// How long the router serves as a home agent, in seconds.
    pub agent_life: u16,
    /// Where the option begins that `MIP_ICMP_OPTION` refuses, else 0.
    pub place: usize,
}

/// A message of this kind and zeros.
fn blank(kind: u8) -> IcmpFields
    ensures { result ≡ blank kind }
{
    IcmpFields {
        kind,
        code: 0,
        pointer: 0,
        hop: 0,
        agent: false,
        life: 0,
        identifier: 0,
        rest: 0,
        has_prefix: false,
        prefix: no_prefix(),
        has_interval: false,
        interval: 0,
        has_agent_info: false,
        preference: 0,
        agent_life: 0,
        place: 0,
    }
}

fn preference_of(agent: Option<AgentInfo>) -> u16
    ensures { result ≡ preference_of agent }
{
    match agent {
        Some(agent) => agent.preference,
        None => 0,
    }
}

fn life_of(agent: Option<AgentInfo>) -> u16
    ensures { result ≡ life_of agent }
{
    match agent {
        Some(agent) => agent.life,
        None => 0,
    }
}

/// A message of this kind with options that begin at a place.
fn with_options(kind: u8, start: usize, options: &IcmpOptions<'_>) -> IcmpFields
    ensures { result ≡ with_options kind start (set_of options.now) }
{
    IcmpFields {
        rest: start,
        has_prefix: options.prefix.is_some(),
        prefix: prefix_fields(options.prefix),
        has_interval: options.interval.is_some(),
        interval: options.interval.unwrap_or(0),
        has_agent_info: options.agent.is_some(),
        preference: preference_of(options.agent),
        agent_life: life_of(options.agent),
        ..blank(kind)
    }
}

/// The fields of a message that was read.
pub fn fields_of(message: &Icmp<'_>) -> IcmpFields
    ensures { result ≡ fields_of (said message.now) }
{
    match message {
        Icmp::Parameter { pointer, .. } => IcmpFields {
            pointer: *pointer,
            rest: 8,
            ..blank(4)
        },
        Icmp::Advertisement {
            hop,
            agent,
            life,
            options,
        } => IcmpFields {
            hop: *hop,
            agent: *agent,
            life: *life,
            ..with_options(134, 16, options)
        },
        Icmp::DiscoverAsk { identifier } => IcmpFields {
            identifier: *identifier,
            ..blank(144)
        },
        Icmp::DiscoverReply { identifier, .. } => IcmpFields {
            identifier: *identifier,
            rest: 8,
            ..blank(145)
        },
        Icmp::PrefixAsk { identifier } => IcmpFields {
            identifier: *identifier,
            ..blank(146)
        },
        Icmp::PrefixReply {
            identifier,
            options,
        } => IcmpFields {
            identifier: *identifier,
            ..with_options(147, 8, options)
        },
    }
}

/// The status of a fault.
pub fn fault_status(fault: IcmpFault) -> u32
    ensures { result ≡ fault_status fault }
{
    match fault {
        IcmpFault::Short => ICMP_SHORT,
        IcmpFault::Checksum => ICMP_CHECKSUM,
        IcmpFault::Unknown { .. } => ICMP_TYPE,
        IcmpFault::Option { .. } => ICMP_OPTION,
    }
}

/// What is unknown, or where an option is wrong.
pub fn fault_fields(fault: IcmpFault) -> IcmpFields
    ensures { result ≡ fault_fields fault }
{
    match fault {
        IcmpFault::Short => blank(0),
        IcmpFault::Checksum => blank(0),
        IcmpFault::Unknown { kind, code } => IcmpFields {
            code,
            ..blank(kind)
        },
        IcmpFault::Option { place } => IcmpFields { place, ..blank(0) },
    }
}
