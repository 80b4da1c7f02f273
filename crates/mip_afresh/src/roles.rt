//! What a run keeps of its nodes: roles are taken out, and put back.

ghost use Rattle.std.specs.Prelude.{◌≡◌, option_map, slice_index_or, slice_set};
ghost use Rattle.mip_history.specs.Runs.{with_agent_past, with_mobile_past};
ghost use Rattle.mip_afresh.specs.Tellings.{with_run};
ghost use Rattle.mip_afresh.specs.declared.role.Role.{Role};
ghost use Rattle.mip_afresh.specs.Roles.{IsAgent, IsMobile, IsTaken, StandsAs};

use crate::role::Role;
use crate::telling::Telling;
use mip_afresh_agent::Agent;
use mip_afresh_mobile::Node;
use mip_words::NodeId;
use std::mem::replace;

/// A role takes the place of another, which is given back: `Plain` where there is no such place.
fn exchange(roles: &mut Vec<Role>, place: usize, role: Role) -> Role
    ensures new { roles.new.items ≡ slice_set roles.old.items place role }
    ensures old { result ≡ slice_index_or roles.old.items place Role.Plain }
{
    match roles.get_mut(place) {
        Some(there) => replace(there, role),
        None => Role::Plain,
    }
}

impl Telling {
    /// What is kept of a node.
    pub fn role(&self, node: NodeId) -> Option<&Role>
        ensures { StandsAs self.now node.0 (option_map (λ r. r.now) result) }
    {
        self.roles.get(usize::from(node.0))
    }

    /// What is kept of a node is taken out, until it is put back.
    pub fn take_role(&mut self, node: NodeId) -> Role
        ensures { IsTaken self.old self.new node.0 result }
    {
        exchange(&mut self.roles, usize::from(node.0), Role::Plain)
    }

    /// A home agent is put back.
    pub fn put_agent(&mut self, node: NodeId, agent: Agent)
        requires { IsAgent self.old.setup node.0 agent }
        ensures { self.new ≡ with_run (with_agent_past node.0 agent.past self.old.run) self.old }
    {
        let _before = exchange(&mut self.roles, usize::from(node.0), Role::Agent(agent));
    }

    /// A mobile is put back.
    pub fn put_mobile(&mut self, node: NodeId, mobile: Node)
        requires { IsMobile self.old.setup node.0 mobile }
        ensures { self.new ≡ with_run (with_mobile_past node.0 mobile.past self.old.run) self.old }
    {
        let _before = exchange(&mut self.roles, usize::from(node.0), Role::Mobile(mobile));
    }
}
