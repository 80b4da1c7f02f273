ghost use Rattle.std.specs.Prelude.{◌≡◌};
ghost use Rattle.std.specs.List.{list_any};
ghost use Rattle.mip_lines.specs.Cutting.{texts};
ghost use Rattle.mip_drafts.specs.Adding.{Becomes};
ghost use Rattle.mip_config.specs.Drafts as drafts;
ghost use Rattle.mip_config.specs.Facts.{address_of};

use crate::payload::Payload;
use crate::role::Role;
use crate::rows::{default_row, payload_row, role_row, route_row, serve_row};
use mip_drafts::Draft;
use mip_frames::Routes;
use mip_schedule::is_reserved;
use mip_symbols::{LineFault, Reason};
use mip_words::{Address, HOME_AGENTS, Items};
use std::alloc::Global;

/// How many routes there may be.
const MOST_ROUTES: usize = 64;

/// How many homes an agent may serve.
const MOST_HOMES: usize = 8;

/// How many payloads there may be.
const MOST_PAYLOADS: usize = 1000;

/// What the lines of a configuration behind its head said so far.
#[derive(Drop)]
pub struct ConfigDraft {
    pub routes: Routes,
    pub fallback: Option<u16>,
    pub role: Option<Role>,
    pub serves: Items<Address>,
    pub payloads: Items<Payload>,
}

fn address_of(role: Role) -> Address
    ensures { result ≡ address_of role }
{
    match role {
        Role::Agent { address, .. }
        | Role::Correspondent { address, .. }
        | Role::Mobile { address, .. } => address,
    }
}

fn is_anycast(address: Address) -> bool
    ensures { result ≡ drafts.is_anycast address }
{
    (address.0 % 0x1_0000_0000_0000_0000) as u64 == HOME_AGENTS
}

fn is_served(homes: &[Address], home: Address) -> bool
    ensures { result ≡ list_any (drafts.is_same home) homes.now }
{
    homes.iter().any(|served| *served == home)
}

impl ConfigDraft {
    pub fn new(alloc: Global) -> ConfigDraft
        ensures { result ≡ drafts.nothing }
    {
        ConfigDraft {
            routes: Routes::new(alloc),
            fallback: None,
            role: None,
            serves: Items::new(alloc),
            payloads: Items::new(alloc),
        }
    }

    fn is_open(&self) -> bool
        ensures { result ≡ drafts.is_open self.now.fallback self.now.role }
    {
        self.fallback.is_none() && self.role.is_none()
    }

    fn is_agent(&self) -> bool
        ensures { result ≡ drafts.is_agent self.now.role }
    {
        matches!(self.role, Some(Role::Agent { .. }))
    }

    fn is_host(&self) -> bool
        ensures { result ≡ drafts.is_host self.now.role }
    {
        matches!(
            self.role,
            Some(Role::Correspondent { .. }) | Some(Role::Mobile { .. })
        )
    }

    #[tactic(auto, unfolding(crate::specs::Drafts::route_onto))]
    fn add_route(&mut self, fields: &[&[u8]]) -> Result<(), LineFault>
        ensures { Becomes self.new result (drafts.route_onto self.old (texts fields.now)) }
    {
        if !self.is_open() {
            return Err(LineFault::Bad(Reason::Form));
        }
        let route = route_row(fields)?;
        if MOST_ROUTES <= self.routes.len() {
            return Err(LineFault::Bad(Reason::Limit));
        }
        self.routes.push(route)?;
        Ok(())
    }

    #[tactic(auto, unfolding(crate::specs::Drafts::default_onto))]
    fn add_default(&mut self, fields: &[&[u8]]) -> Result<(), LineFault>
        ensures { Becomes self.new result (drafts.default_onto self.old (texts fields.now)) }
    {
        if !self.is_open() {
            return Err(LineFault::Bad(Reason::Form));
        }
        self.fallback = Some(default_row(fields)?);
        Ok(())
    }

    #[tactic(auto, unfolding(crate::specs::Drafts::role_onto))]
    fn add_role(&mut self, word: &[u8], fields: &[&[u8]]) -> Result<(), LineFault>
        ensures { Becomes self.new result (drafts.role_onto self.old word.now (texts fields.now)) }
    {
        if self.role.is_some() {
            return Err(LineFault::Bad(Reason::Form));
        }
        let role = role_row(word, fields)?;
        if is_anycast(address_of(role)) {
            return Err(LineFault::Bad(Reason::Clash));
        }
        self.role = Some(role);
        Ok(())
    }

    #[tactic(auto, unfolding(crate::specs::Drafts::serve_onto))]
    fn add_home(&mut self, fields: &[&[u8]]) -> Result<(), LineFault>
        ensures { Becomes self.new result (drafts.serve_onto self.old (texts fields.now)) }
    {
        if !self.is_agent() {
            return Err(LineFault::Bad(Reason::Form));
        }
        let home = serve_row(fields)?;
        if MOST_HOMES <= self.serves.len() {
            return Err(LineFault::Bad(Reason::Limit));
        }
        if is_served(self.serves.as_slice(), home) {
            return Err(LineFault::Bad(Reason::Clash));
        }
        self.serves.push(home)?;
        Ok(())
    }

    #[tactic(auto, unfolding(crate::specs::Drafts::payload_onto))]
    fn add_payload(&mut self, alloc: Global, fields: &[&[u8]]) -> Result<(), LineFault>
        ensures { Becomes self.new result (drafts.payload_onto self.old (texts fields.now)) }
    {
        if !self.is_host() {
            return Err(LineFault::Bad(Reason::Form));
        }
        let payload = payload_row(alloc, fields)?;
        if MOST_PAYLOADS <= self.payloads.len() {
            return Err(LineFault::Bad(Reason::Limit));
        }
        if is_reserved(payload.proto) {
            return Err(LineFault::Bad(Reason::Number));
        }
        self.payloads.push(payload)?;
        Ok(())
    }

    /// One line more, by its word.
    #[tactic(auto, unfolding(crate::specs::Drafts::line_onto))]
    fn add_line(&mut self, alloc: Global, row: &[&[u8]]) -> Result<(), LineFault>
        ensures { Becomes self.new result (drafts.line_onto self.old (texts row.now)) }
    {
        let [first, fields @ ..] = row else {
            return Err(LineFault::Bad(Reason::Form));
        };
        let word = *first;
        if word == b"route".as_slice() {
            self.add_route(fields)
        } else if word == b"default".as_slice() {
            self.add_default(fields)
        } else if word == b"serve".as_slice() {
            self.add_home(fields)
        } else if word == b"payload".as_slice() {
            self.add_payload(alloc, fields)
        } else {
            self.add_role(word, fields)
        }
    }
}

impl Draft for ConfigDraft {
    ghost onto = { drafts.line_onto };

    fn add(&mut self, alloc: Global, row: &[&[u8]]) -> Result<(), LineFault> {
        self.add_line(alloc, row)
    }
}
