ghost use Rattle.std.specs.Prelude.{◌≡◌, ◌≤◌, [], IfOk, IfSome, Some, length, slice_get};
ghost use Rattle.mip_links.specs.Kept.{IsLeft, from_of, room_of, shield_of};

use crate::flight::Flight;
use crate::kept_flight::KeptFlight;
use mip_words::{LinkId, Memory, Shield};
use std::alloc::Global;
use std::marker::Model;

/// So many of the last shields are searched for one that is kept already.
const NEAR: usize = 64;

/// The shields that packets have had. They name nodes, so few of them differ, and most packets share one with an earlier packet.
#[derive(Drop)]
pub(crate) struct Shields {
    list: Vec<Shield>,
}

impl Model for Shields {
    ghost use Rattle.std.specs.Prelude.{List};
    ghost use Rattle.mip_words.specs.declared.shield.Shield.{Shield};

    ghost Value = { List Shield };

    ghost view = { λ s. s.list.items };
}

impl Shields {
    pub(crate) fn new(alloc: Global) -> Shields
        ensures { result ≡ [] }
    {
        Shields {
            list: Vec::new(alloc),
        }
    }

    /// Keeps how a packet was sent.
    pub(crate) fn keep(
        &mut self,
        from: LinkId,
        shield: Option<Shield>,
    ) -> Result<KeptFlight, Memory>
        ensures from { IfOk result (λ flight. from_of flight ≡ from.0) }
        ensures shield { IfOk result (λ flight. shield_of self.new flight ≡ shield) }
        ensures room { IfOk result (λ flight. room_of flight ≤ length self.new) }
        ensures left { IsLeft self.old self.new }
    {
        match shield {
            None => Ok(KeptFlight::Plain(from)),
            Some(shield) => Ok(KeptFlight::Shielded(from, self.place(shield)?)),
        }
    }

    /// The place of a shield, which is put behind the others where it does not stand among the last.
    fn place(&mut self, shield: Shield) -> Result<u32, Memory>
        ensures found { IfOk result (λ place. slice_get self.new place ≡ Some shield) }
        ensures left { IsLeft self.old self.new }
    {
        match place_of(&self.list, shield) {
            Some(place) => Ok(place),
            None => self.push(shield),
        }
    }

    /// Takes one more shield.
    fn push(&mut self, shield: Shield) -> Result<u32, Memory>
        ensures found { IfOk result (λ place. slice_get self.new place ≡ Some shield) }
        ensures left { IsLeft self.old self.new }
    {
        let Ok(place) = u32::try_from(self.list.len()) else {
            return Err(Memory);
        };
        self.list.push(shield)?;
        Ok(place)
    }

    /// How a packet was sent that is kept so.
    pub(crate) fn flight(&self, kept: &KeptFlight) -> Flight
        ensures from { result.from.0 ≡ from_of kept.now }
        ensures shield { result.shield ≡ shield_of self.now kept.now }
    {
        match kept {
            KeptFlight::Plain(from) => Flight {
                from: *from,
                shield: None,
            },
            KeptFlight::Shielded(from, place) => Flight {
                from: *from,
                shield: self.list.get(*place as usize).copied(),
            },
        }
    }
}

/// The place of a shield among the last.
fn place_of(shields: &[Shield], shield: Shield) -> Option<u32>
    ensures { IfSome result (λ place. slice_get shields.now place ≡ Some shield) }
{
    let first = shields.len().saturating_sub(NEAR);
    let mut place = shields.len();
    while place > first {
        place -= 1;
        if shields[place] == shield {
            return u32::try_from(place).ok();
        }
    }
    None
}
