ghost use Rattle.std.specs.Prelude.{◌≡◌, []};
ghost use Rattle.mip_afresh_mobile.specs.Nodes.{after_call};
ghost use Rattle.mip_afresh_mobile.specs.Pasts.{call_of};

use crate::called::Called;
use mip_ghost_log::GhostLog;
use mip_nonce::Secrets;
use mip_words::Address;
use std::marker::Model;

/// What a mobile was made with, and the calls that it was given. The secrets of its first life and the calls are for clauses alone.
#[derive(Drop)]
pub struct Past {
    home: Address,
    declared: Option<Address>,
    numbers: u8,
    born: GhostLog<Secrets>,
    called: GhostLog<Called>,
}

impl Model for Past {
    ghost use Rattle.mip_afresh_mobile.specs.Nodes.{NodeSeen};
    ghost use Rattle.mip_afresh_mobile.specs.Pasts.{node_of, first_secrets};

    ghost Value = { NodeSeen };

    ghost view = { λ p. node_of p.home p.declared p.numbers (first_secrets p.born.items) p.called.items };
}

impl Past {
    /// Of a mobile that was given no call.
    pub fn new(home: Address, declared: Option<Address>, numbers: u8, secrets: &Secrets) -> Past
        ensures { result ≡ record { home = home; declared = declared; numbers = numbers; secrets = secrets.now; past = [] } }
    {
        Past {
            home,
            declared,
            numbers,
            born: GhostLog::new().with(secrets),
            called: GhostLog::new(),
        }
    }

    /// The home address.
    pub fn home(&self) -> Address
        ensures { result ≡ self.now.home }
    {
        self.home
    }

    /// How many bindings its correspondent part has for each home.
    pub fn numbers(&self) -> u8
        ensures { result ≡ self.now.numbers }
    {
        self.numbers
    }

    /// One call more.
    pub fn add(&mut self, call: &Called)
        ensures { self.new ≡ after_call self.old call.now.at.0 (call_of call.now.asked) }
    {
        self.called = self.called.with(call);
    }
}
