//! The first packet of an update.

ghost use Rattle.std.specs.Prelude.{◌≡◌, ℕ, List, Option, option_map};
ghost use Rattle.mip_packets.specs.Says.{key_of};
ghost use Rattle.mip_provenance.specs.Lists.{lesser};
ghost use Rattle.mip_provenance.specs.Firsts.{post_at, number_of, key_at, carries_key, first_update};
ghost use Rattle.mip_afresh_marks.specs.Sighting.{sight_seen, sights_in};

use crate::numbered::Numbered;
use crate::posts::{key, maker};
use crate::sight::Sight;
use mip_packets::UpdateIdentity;
use mip_provenance::{Maker, same_key};

/// The number of the packet that a sight posts.
fn number_of(sight: &Sight) -> Option<u64>
    ensures { (token : ℕ → Option (List ℕ)) → result ≡ number_of (sight_seen token sight.now) }
{
    match sight {
        Sight::Sent { number, .. } | Sight::Injected { number, .. } => Some(*number),
        _ => None,
    }
}

impl Numbered<'_> {
    /// The update in a packet.
    pub(crate) fn key_at(&self, number: u64) -> Option<UpdateIdentity<'_>>
        ensures { option_map key_of result ≡ key_at (sights_in self.now.sights.now) number }
    {
        key(&self.sights.posts, number)
    }

    /// Who posted a packet.
    pub(crate) fn maker_at(&self, number: u64) -> Option<Maker>
        ensures { result ≡ option_map (λ p. p.maker) (post_at (sights_in self.now.sights.now) number) }
    {
        maker(&self.sights.posts, number)
    }

    /// A packet carries the update.
    fn carries(&self, number: u64, key: &UpdateIdentity) -> bool
        ensures { result ≡ carries_key (sights_in self.now.sights.now) (key_of key.now) number }
    {
        match self.key_at(number) {
            Some(other) => same_key(key, &other),
            None => false,
        }
    }

    /// The lesser of two numbers, the second where it carries the update.
    fn lesser(&self, key: &UpdateIdentity, best: Option<u64>, number: u64) -> Option<u64>
        ensures { result ≡ lesser (carries_key (sights_in self.now.sights.now) (key_of key.now)) best number }
    {
        let carries = self.carries(number, key);
        match best {
            None => { if carries { Some(number) } else { None } }
            Some(least) => {
                if carries && number < least {
                    Some(number)
                } else {
                    Some(least)
                }
            }
        }
    }

    /// The first packet that carries the update.
    #[tactic(auto, unfolding(mip_provenance::specs::Firsts::first_update))]
    pub(crate) fn first_update(&self, key: &UpdateIdentity) -> Option<u64>
        ensures { result ≡ first_update (sights_in self.now.sights.now) (key_of key.now) }
    {
        let mut best = None;
        for sight in &self.sights.seen {
            match number_of(sight) {
                Some(number) => best = self.lesser(key, best, number),
                None => (),
            }
        }
        best
    }
}
