ghost use Rattle.std.specs.Prelude.{◌≡◌, ◌<◌, ◌≤◌, ◌^◌, IfOk, OnOk, option_copied, option_map, slice_get};
ghost use Rattle.mip_history.specs.Nodes.{row_entry, home_entry};
ghost use Rattle.mip_rules_correspondent.specs.Questions.{fresh};
ghost use Rattle.mip_roles.specs.Calls.{asked, IsAskable};
ghost use Rattle.mip_roles.specs.Hosts.{kind_of, IsFitKind};
ghost use Rattle.mip_roles.specs.Ends.{present_of, agent_of, is_bound_to, held_by_role, careof_of};
ghost use Rattle.mip_roles.specs.Places.{around_seen};
ghost use Rattle.mip_roles.specs.Roles.{last_of, answers_to, after_call, due_of, rows_of, homes_of, lives_in, is_roaming, new_role};

use crate::binding_numbers::BindingNumbers;
use crate::call::Call;
use crate::call_at::CallAt;
use crate::kind::Kind;
use crate::mobile_role::MobileRole;
use crate::place::NetPlace;
use crate::{agent, correspondent};
use mip_bcache::Row;
use mip_entries::{Answers, Entry};
use mip_homeagent::{HomeAgent, HomeRow};
use mip_mobile_calls::correspondent::Correspondent;
use mip_nonce::Secrets;
use mip_words::{Address, Memory, Moment, NodeId};
use std::alloc::Global;

/// The role of a node.
#[derive(Drop)]
pub enum Role {
    Correspondent(Correspondent),
    Agent(HomeAgent),
    Mobile(MobileRole),
}

fn row_entry(node: NodeId, row: Option<&Row>) -> Option<Entry>
    ensures { result ≡ option_map (row_entry node.0) (option_copied row.entry) }
{
    let row = row?;
    Some(Entry::Row {
        node,
        home: row.home,
        binding: row.number,
        careof: row.careof,
        sequence: row.sequence,
        end: row.end,
        kept_until: row.kept_until,
    })
}

fn home_entry(node: NodeId, row: Option<HomeRow>) -> Option<Entry>
    ensures { result ≡ option_map (home_entry node.0) row }
{
    let row = row?;
    Some(Entry::Row {
        node,
        home: row.home,
        binding: 0,
        careof: row.careof,
        sequence: row.sequence,
        end: row.end,
        kept_until: row.end,
    })
}

/// A correspondent in the life of these secrets. No memory holds more rows than 32 bits count.
fn new_correspondent(
    alloc: Global,
    own: Address,
    secrets: Secrets,
    room: u32,
    numbers: BindingNumbers,
) -> Result<Role, Memory>
    ensures { IfOk result (λ r. r ≡
        Role.Correspondent (record { identity = record { own = own; secrets = secrets; room = room }; known = fresh room numbers.count })) }
{
    match room.checked_mul(u32::from(numbers.count)) {
        Some(_rows) => {
            let role = Correspondent::new(alloc, own, secrets, room, numbers.count)?;
            Ok(Role::Correspondent(role))
        }
        None => Err(Memory),
    }
}

impl Role {
    /// The role of a node in a life, with nothing behind it, where a home's bindings may have so many numbers; a mobile is in its
    /// first.
    pub fn new(
        alloc: Global,
        seed: &[u8; 32],
        node: NodeId,
        life: u32,
        own: Address,
        kind: &Kind,
        numbers: BindingNumbers,
    ) -> Result<Role, Memory>
        requires kind { IsFitKind own (kind_of kind.now) }
        ensures { IfOk result (λ r. r ≡ new_role seed.now numbers.count node.0 life own (kind_of kind.now)) }
    {
        match kind {
            Kind::Correspondent { room } => {
                let secrets = Secrets::new(seed, node, life);
                new_correspondent(alloc, own, secrets, *room, numbers)
            }
            Kind::Agent {
                preference,
                life,
                room,
                serves,
            } => {
                let role = HomeAgent::new(alloc, own, *preference, *life, *room, serves)?;
                Ok(Role::Agent(role))
            }
            Kind::Mobile { agent } => {
                let secrets = Secrets::new(seed, node, 0);
                Ok(Role::Mobile(MobileRole::new(alloc, own, *agent, secrets, numbers)?))
            }
        }
    }

    /// The node is asked something.
    pub fn act(
        &mut self,
        alloc: Global,
        place: &mut NetPlace<'_>,
        now: Moment,
        call: Call<'_>,
    ) -> Result<Answers, Memory>
        requires later { last_of self.old ≤ now.0 }
        requires early { now.0 < 2 ^ 62 }
        requires askable { IsAskable call }
        ensures answers { IfOk result (λ a. a ≡ answers_to (around_seen place.old) self.old now.0 (asked call.entry)) }
        ensures after { OnOk result (self.new ≡ after_call (around_seen place.old) self.old now.0 (asked call.entry)) }
        ensures timely { last_of self.new ≤ now.0 }
    {
        let at = CallAt { now, call };
        match self {
            Role::Correspondent(role) => correspondent::ask(role, alloc, at),
            Role::Agent(role) => agent::ask(role, alloc, place, at),
            Role::Mobile(role) => role.ask(alloc, place, at),
        }
    }

    /// When it has work due.
    pub fn due(&self) -> Option<Moment>
        ensures { option_map (λ m. m.0) result ≡ due_of self.now }
    {
        match self {
            Role::Correspondent(_) => None,
            Role::Agent(role) => role.due(),
            Role::Mobile(role) => role.due(),
        }
    }

    /// The row at a place among those that it keeps as this node, in order of home, then of number.
    pub fn entry(&self, node: NodeId, now: Moment, place: u32) -> Option<Entry>
        requires { last_of self.now ≤ now.0 }
        ensures { result ≡ slice_get (rows_of node.0 self.now now.0) place }
    {
        match self {
            Role::Correspondent(role) => row_entry(node, role.row(now, place)),
            Role::Agent(role) => home_entry(node, role.row(now, place)),
            Role::Mobile(role) => row_entry(node, role.row(now, place)),
        }
    }

    /// The home at a place among those that it has registered, in order of address.
    pub fn home(&self, now: Moment, place: u32) -> Option<HomeRow>
        ensures { result ≡ slice_get (homes_of self.now now.0) place }
    {
        match self {
            Role::Correspondent(_) => None,
            Role::Agent(role) => role.row(now, place),
            Role::Mobile(_) => None,
        }
    }

    /// The address at which it is present, where this is its own.
    pub fn present(&self, own: Address) -> Option<Address>
        ensures { result ≡ present_of own self.now }
    {
        match self {
            Role::Correspondent(_) => Some(own),
            Role::Agent(_) => Some(own),
            Role::Mobile(role) => role.present(own),
        }
    }

    /// The agent with which it is registered.
    pub fn agent(&self, now: Moment) -> Option<Address>
        ensures { result ≡ agent_of self.now now.0 }
    {
        match self {
            Role::Correspondent(_) => None,
            Role::Agent(_) => None,
            Role::Mobile(role) => role.agent(now),
        }
    }

    /// Whether it has a binding with a peer.
    pub fn is_bound(&self, now: Moment, peer: Address) -> bool
        ensures { result ≡ is_bound_to self.now now.0 peer }
    {
        match self {
            Role::Correspondent(_) => false,
            Role::Agent(_) => false,
            Role::Mobile(role) => role.is_bound(now, peer),
        }
    }

    /// The care-of address that it holds for a home.
    pub fn held(&self, now: Moment, home: Address) -> Option<Address>
        requires { last_of self.now ≤ now.0 }
        ensures { result ≡ held_by_role self.now now.0 home }
    {
        match self {
            Role::Correspondent(role) => role.route(now, home),
            Role::Agent(_) => None,
            Role::Mobile(role) => role.held(now, home),
        }
    }

    /// The care-of address that it has registered for a home.
    pub fn careof(&self, now: Moment, home: Address) -> Option<Address>
        ensures { result ≡ careof_of self.now now.0 home }
    {
        match self {
            Role::Correspondent(_) => None,
            Role::Agent(role) => role.careof(now, home),
            Role::Mobile(_) => None,
        }
    }

    /// Whether it is a mobile at home, and this is its home address.
    pub fn lives_at(&self, address: Address) -> bool
        ensures { result ≡ lives_in self.now address.0 }
    {
        match self {
            Role::Correspondent(_) => false,
            Role::Agent(_) => false,
            Role::Mobile(role) => role.lives_at(address),
        }
    }

    /// Whether it is a mobile.
    pub fn is_roaming(&self) -> bool
        ensures { result ≡ is_roaming self.now }
    {
        matches!(self, Role::Mobile(_))
    }
}
