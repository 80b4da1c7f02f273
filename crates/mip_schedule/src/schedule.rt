ghost use Rattle.std.specs.Prelude.{◌≡◌, ◌+◌, ◌<◌, ◌^◌, length, true};
ghost use Rattle.std.specs.Coded.{Coded-set};
ghost use Rattle.mip_schedule.specs.Accepted.{again, is_accepted};
ghost use Rattle.mip_schedule.specs.Contents.{holding};

use crate::events::Events;
use crate::laws::few;
use mip_symbols::{Declarations, FewDeclarations};
use mip_words::Moment;

/// A schedule: the version of its text, the seed of all secrets, the moment of the start, who there is, and what happens. What it
/// holds can be written, and is read again from what is written. The numbers of its lines are of 32 bits.
#[derive(Drop)]
pub struct Schedule {
    pub version: u8,
    pub seed: [u8; 32],
    pub start: Moment,
    pub declarations: Declarations,
    pub events: Events,
    pub ghost accepted: { is_accepted (holding version seed start declarations events) ≡ true },
    pub ghost same_version: { (again (holding version seed start declarations events)).version ≡ version },
    pub ghost same_seed: { (again (holding version seed start declarations events)).seed ≡ seed },
    pub ghost same_start: { (again (holding version seed start declarations events)).start ≡ start } by { Coded-set start-code _ _ },
    pub ghost same_declarations: { (again (holding version seed start declarations events)).declarations ≡ declarations } by { Coded-set declarations-code _ _ },
    pub ghost same_events: { (again (holding version seed start declarations events)).events ≡ events } by { Coded-set events-code _ _ },
    pub ghost few_lines: { length declarations + length events + 5 < 2 ^ 32 },
}

impl Schedule {
    /// What is declared, which is of few links, nodes and outsiders.
    pub fn few_declarations(&self) -> FewDeclarations<'_>
        ensures { result ≡ self.now.declarations }
    {
        few(self);
        FewDeclarations::new(self.declarations.as_slice())
    }
}
