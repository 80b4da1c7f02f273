ghost use Rattle.std.specs.Prelude.{◌≡◌};
ghost use Rattle.std.specs.Option.{option_map};
ghost use Rattle.mip_roles.specs.Hosts.{kind_of};
ghost use Rattle.mip_roles.specs.Nodes.{router_of, seen_router};

use crate::kind::Kind;
use crate::router::Router;
use mip_words::Address;
use std::marker::Model;

/// A node as a schedule declares it: its address, which is the home address of a mobile, and what it is.
#[derive(Drop)]
pub struct Host {
    address: Address,
    kind: Kind,
}

impl Model for Host {
    ghost use Rattle.mip_history.specs.Setup.{Host as HostSeen};
    ghost use Rattle.mip_roles.specs.Hosts.{kind_of};

    ghost Value = { HostSeen };

    ghost view = { λ h. record { address = h.address; kind = kind_of h.kind } };
}

impl Host {
    pub fn new(address: Address, kind: Kind) -> Host
        ensures { result ≡ record { address = address; kind = kind_of kind } }
    {
        Host { address, kind }
    }

    pub fn address(&self) -> Address
        ensures { result ≡ self.now.address }
    {
        self.address
    }

    pub fn kind(&self) -> &Kind
        ensures { kind_of result.now ≡ self.now.kind }
    {
        &self.kind
    }

    /// The agent that it is, as it advertises itself.
    pub fn router(&self) -> Option<Router>
        ensures { option_map seen_router result ≡ router_of self.now }
    {
        match &self.kind {
            Kind::Agent {
                preference,
                life,
                ..
            } => Some(Router {
                address: self.address,
                preference: *preference,
                life: *life,
            }),
            Kind::Correspondent { .. } | Kind::Mobile { .. } => None,
        }
    }
}
