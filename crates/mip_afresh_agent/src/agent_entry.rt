ghost use Rattle.std.specs.Prelude.{◌≡◌, IfOk};
ghost use Rattle.mip_discovery.specs.Heard.{agent_of, is_live, is_again, renewed, stays};
ghost use Rattle.mip_discovery.specs.Reply.{is_above, is_behind};

use mip_words::{Address, Memory, Moment};
use std::marker::Model;

/// Another home agent, as its last advertisement has it: an entry of the Home Agents List (RFC 6275 section 10.1).
#[derive(Clone, Copy)]
pub struct AgentEntry {
    address: Address,
    preference: u16,
    /// The end of its life.
    end: Moment,
}

impl Model for AgentEntry {
    ghost use Rattle.mip_discovery.specs.declared.agent.Agent.{Agent};

    ghost Value = { Agent };

    ghost view = { λ e. record { address = e.address; preference = e.preference; end = e.end } };

    ghost inverse = { λ a. record { address = a.address; preference = a.preference; end = a.end } };
}

impl AgentEntry {
    /// The entry that an advertisement makes. One whose life ends beyond all moments is answered as if memory had run out.
    pub fn new(
        at: Moment,
        address: Address,
        preference: u16,
        life: u16,
    ) -> Result<AgentEntry, Memory>
        ensures { IfOk result (λ e. e ≡ agent_of (record { at = at.0; agent = address; preference = preference; life = life })) }
    {
        let lived = u64::from(life) * 1000;
        match at.0.checked_add(lived) {
            Some(end) => Ok(AgentEntry {
                address,
                preference,
                end: Moment(end),
            }),
            None => Err(Memory),
        }
    }

    pub fn address(&self) -> Address
        ensures { result ≡ self.now.address }
    {
        self.address
    }

    pub fn preference(&self) -> u16
        ensures { result ≡ self.now.preference }
    {
        self.preference
    }

    /// Its life has not ended.
    pub fn is_live(&self, now: Moment) -> bool
        ensures { result ≡ is_live now.0 self.now }
    {
        self.end.0 > now.0
    }

    /// It is live, and is heard again with the same preference.
    pub fn is_again(&self, now: Moment, heard: &AgentEntry) -> bool
        ensures { result ≡ is_again now.0 heard.now self.now }
    {
        self.is_live(now)
            && self.address.0 == heard.address().0
            && self.preference == heard.preference()
    }

    /// The entry that is heard in its place, where it is heard again.
    pub fn renewed(&self, now: Moment, heard: &AgentEntry) -> AgentEntry
        ensures { result ≡ renewed now.0 heard.now self.now }
    {
        if self.is_again(now, heard) {
            *heard
        } else {
            *self
        }
    }

    /// It stays beside the entry that is heard.
    pub fn stays(&self, now: Moment, heard: &AgentEntry) -> bool
        ensures { result ≡ stays now.0 heard.now self.now }
    {
        let same = self.address.0 == heard.address().0;
        self.is_live(now) && !(same && self.preference != heard.preference())
    }

    /// It is of another agent than the one that answers, and of greater preference.
    pub fn is_above(&self, own: Address, preference: u16) -> bool
        ensures { result ≡ is_above own preference self.now }
    {
        self.address.0 != own.0 && self.preference > preference
    }

    /// It is of another agent than the one that answers, and follows it.
    pub fn is_behind(&self, own: Address, preference: u16) -> bool
        ensures { result ≡ is_behind own preference self.now }
    {
        self.address.0 != own.0 && self.preference <= preference
    }
}
