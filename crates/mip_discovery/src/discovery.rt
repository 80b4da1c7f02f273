ghost use Rattle.std.specs.Prelude.{◌≡◌, ◌<◌, ◌≤◌, ◌*◌, ◌^◌, ◌==◌, ◌↔◌, None};
ghost use Rattle.mip_words.specs.Constants.{initial_dhaad_timeout};
ghost use Rattle.mip_discovery.specs.Retries.{started, retried};

use mip_words::Moment;
use mip_words::constants::{DHAAD_RETRIES, INITIAL_DHAAD_TIMEOUT};
use std::marker::Model;

/// A discovery of home agents that is under way (RFC 6275 section 11.4.1): one request, and at most four retries, which
/// have its identifier. The first is due after 3 s, and each later one after twice as long as the one before it.
#[derive(Drop)]
pub struct Discovery {
    identifier: u16,
    retries: u8,
    due: Moment,
}

impl Model for Discovery {
    ghost use Rattle.std.specs.Prelude.{◌≤◌};
    ghost use Rattle.mip_words.specs.Constants.{initial_dhaad_timeout};
    ghost use Rattle.mip_discovery.specs.Retries.{DiscoverySeen};

    ghost Value = { DiscoverySeen };

    ghost view = { λ d. record { identifier = d.identifier; retries = d.retries; due = d.due.0 } };

    ghost invariant = { λ d. d.retries ≤ 4 };
}

impl Discovery {
    /// A discovery whose request is sent at this moment.
    pub fn start(now: Moment, identifier: u16) -> Discovery
        requires { now.0 < 2 ^ 62 }
        ensures { result ≡ started now.0 identifier }
    {
        Discovery {
            identifier,
            retries: 0,
            due: Moment(now.0 + INITIAL_DHAAD_TIMEOUT),
        }
    }

    /// The identifier of its requests.
    pub fn identifier(&self) -> u16
        ensures { result ≡ self.now.identifier }
    {
        self.identifier
    }

    /// How many milliseconds after its last request the next retry is due.
    pub fn wait(&self) -> u64
        ensures value { result ≡ initial_dhaad_timeout * 2 ^ self.now.retries }
        ensures small { result < 2 ^ 32 }
    {
        wait(self.retries)
    }

    /// When the next retry is due, or after the fourth one when the mobile gives up.
    pub fn due(&self) -> Moment
        ensures { result.0 ≡ self.now.due }
    {
        self.due
    }

    /// The discovery after a retry that is sent at this moment; None after the fourth.
    pub fn again(self, now: Moment) -> Option<Discovery>
        requires { now.0 < 2 ^ 62 }
        ensures exact { result ≡ retried now.0 self }
        ensures none { result ≡ None ↔ self.retries ≡ 4 }
    {
        if self.retries == DHAAD_RETRIES {
            return None;
        }
        let retries = self.retries + 1;
        Some(Discovery {
            identifier: self.identifier,
            retries,
            due: Moment(now.0 + wait(retries)),
        })
    }

    /// Whether a reply with this identifier answers it.
    pub fn matches(&self, identifier: u16) -> bool
        ensures { result ≡ (identifier == self.now.identifier) }
    {
        identifier == self.identifier
    }
}

/// How long after a retry the next one is due.
fn wait(retries: u8) -> u64
    requires { retries ≤ 4 }
    ensures value { result ≡ initial_dhaad_timeout * 2 ^ retries }
    ensures small { result < 2 ^ 32 }
{
    match retries {
        0 => INITIAL_DHAAD_TIMEOUT,
        1 => 2 * INITIAL_DHAAD_TIMEOUT,
        2 => 4 * INITIAL_DHAAD_TIMEOUT,
        3 => 8 * INITIAL_DHAAD_TIMEOUT,
        _ => 16 * INITIAL_DHAAD_TIMEOUT,
    }
}
