//! The mark of an acceptance, by its causes in their order (RFC 6275 section 5.2).

ghost use Rattle.std.specs.Prelude.{◌≡◌, option_map};
ghost use Rattle.mip_packets.specs.Says.{key_of};
ghost use Rattle.mip_provenance.specs.Firsts.{first_update};
ghost use Rattle.mip_provenance.specs.Marks.{by_claims, by_first, mark_of};
ghost use Rattle.mip_provenance.specs.Seen.{claim_of};
ghost use Rattle.mip_afresh_marks.specs.Sighting.{sights_in, AreNumbered};

use crate::numbered::Numbered;
use crate::sights::Sights;
use mip_packets::UpdateIdentity;
use mip_provenance::{AcceptedUpdate, Claim, Mark, Signed};
use mip_words::Address;

impl Sights {
    /// Causes 2 and 3; where neither holds, the origin.
    fn judged(&self, home: &Claim, careof: &Option<Claim>, update: u64) -> Mark
        ensures { result ≡ by_claims (sights_in self.now) (claim_of home.now) (option_map claim_of careof.now) update }
    {
        if self.is_used_early(home, careof) {
            return Mark::Forged(2);
        }
        let named = self.named(home);
        let hot = named.first.unwrap_or(0);
        match careof {
            None => {
                if named.otherwise {
                    return Mark::Forged(3);
                }
                Mark::Origin {
                    hot,
                    cot: None,
                    update,
                }
            }
            Some(careof) => {
                let other = self.named(careof);
                if named.otherwise || other.otherwise {
                    return Mark::Forged(3);
                }
                Mark::Origin {
                    hot,
                    cot: Some(other.first.unwrap_or(0)),
                    update,
                }
            }
        }
    }
}

impl Numbered<'_> {
    /// The mark of the acceptance of an update that was found.
    fn mark_with(&self, accepted: &AcceptedUpdate, own: Address, key: &UpdateIdentity) -> Mark
        ensures { result ≡ by_first (sights_in self.now.sights.now) accepted.now own (key_of key.now) (first_update (sights_in self.now.sights.now) (key_of key.now)) }
    {
        let Some(update) = self.first_update(key) else {
            return Mark::Forged(1);
        };
        let Some(maker) = self.maker_at(update) else {
            return Mark::Forged(1);
        };
        let signed = Signed {
            own,
            careof: accepted.careof,
            key: *key,
            witness: None,
        };
        let Some(pair) = self
            .sights
            .pair(accepted.careof_index, &signed, update, maker)
        else {
            return Mark::Forged(1);
        };
        let life = self.sights.life(accepted.node);
        let home = accepted.home_claim(life, &pair);
        let careof = accepted.careof_claim(life, &pair);
        self.sights.judged(&home, &careof, update)
    }

    /// The mark of an update that is accepted by a node with an address of its own.
    #[tactic(auto, unfolding(mip_provenance::specs::Marks::mark_of))]
    fn mark(&self, accepted: &AcceptedUpdate, own: Option<Address>) -> Mark
        ensures { result ≡ mark_of (sights_in self.now.sights.now) accepted.now own }
    {
        let Some(own) = own else {
            return Mark::Forged(1);
        };
        let Some(key) = self.key_at(accepted.number) else {
            return Mark::Forged(1);
        };
        self.mark_with(accepted, own, &key)
    }
}

impl Sights {
    /// The mark of an update that is accepted behind these sights by a node with an address of its own.
    pub fn mark(&self, accepted: &AcceptedUpdate, own: Option<Address>) -> Mark
        requires { AreNumbered self.now }
        ensures { result ≡ mark_of (sights_in self.now) accepted.now own }
    {
        let numbered = Numbered { sights: self };
        numbered.mark(accepted, own)
    }
}
