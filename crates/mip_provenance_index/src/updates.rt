ghost use Rattle.std.specs.Prelude.{◌≡◌, ◌==◌, ℕ, Option, OnOk, IfOk, None, Some, option_map, if◌then◌else◌};
ghost use Rattle.mip_packets.specs.Says.{UpdateIdentity};
ghost use Rattle.mip_provenance_index.specs.Sights.{sight_of};
ghost use Rattle.mip_provenance_index.specs.Updates.{AreOf, update_at, update_posted, posting_of, chosen, look_step, at_step};

use crate::first::First;
use crate::firsts::Firsts;
use crate::posting::Posting;
use crate::sight::Sight;
use crate::update_key::update_key;
use mip_packets::Carried;
use mip_provenance::Maker;
use mip_words::Memory;
use std::alloc::Global;
use std::collections::BTreeMap;

/// The first packet of the update in each packet that carries one.
#[derive(Drop)]
pub struct Updates {
    by_key: Firsts,
    by_number: BTreeMap<u64, First>,
}

impl Updates {
    pub fn new(alloc: Global) -> Updates
        ensures keys { AreOf result (λ _. None) }
        ensures numbers { (k : ℕ) → update_at result k ≡ None }
    {
        Updates {
            by_key: Firsts::new(alloc),
            by_number: BTreeMap::new(alloc),
        }
    }

    /// The first packet of the update in packet k.
    pub fn first(&self, number: u64) -> Option<First>
        ensures { result ≡ update_at self.now number }
    {
        self.by_number.get(&number).copied()
    }

    /// Keeps the first packet of an update.
    fn put(&mut self, number: u64, first: First) -> Result<(), Memory>
        ensures keys { OnOk result (self.new.by_key ≡ self.old.by_key) }
        ensures numbers { OnOk result ((k : ℕ) → update_at self.new k ≡ (if number == k then Some first else update_at self.old k)) }
    {
        self.by_number.insert(number, first)?;
        Ok(())
    }

    /// The first packet of an update that is posted: this one, unless there was one before.
    fn chosen(&mut self, alloc: Global, heard: usize, posting: &Posting) -> Result<First, Memory>
        ensures keys { (look : UpdateIdentity → Option First) → AreOf self.old look
            → IfOk result (λ f. (f ≡ chosen heard (posting_of posting.now) look) × AreOf self.new (look_step heard (Some (posting_of posting.now)) look)) }
        ensures numbers { OnOk result (self.new.by_number ≡ self.old.by_number) }
    {
        let key = update_key(alloc, &posting.key)?;
        match self.by_key.first(&key) {
            Some(first) => Ok(first),
            None => {
                let first = First {
                    number: posting.number,
                    maker: posting.maker,
                    heard,
                };
                self.by_key.put(key, first)?;
                Ok(first)
            }
        }
    }

    /// Takes one more packet with an update.
    fn add(&mut self, alloc: Global, heard: usize, posting: &Posting) -> Result<(), Memory>
        ensures keys { (look : UpdateIdentity → Option First) → AreOf self.old look
            → OnOk result (AreOf self.new (look_step heard (Some (posting_of posting.now)) look)) }
        ensures numbers { (look : UpdateIdentity → Option First) → AreOf self.old look
            → OnOk result ((k : ℕ) → update_at self.new k ≡ at_step heard (Some (posting_of posting.now)) look (update_at self.old) k) }
    {
        let first = self.chosen(alloc, heard, posting)?;
        self.put(posting.number, first)?;
        Ok(())
    }

    /// Takes one more sight, where so many tokens had come to outsiders.
    pub fn note(&mut self, alloc: Global, heard: usize, sight: &Sight) -> Result<(), Memory>
        ensures keys { (look : UpdateIdentity → Option First) → AreOf self.old look
            → OnOk result (AreOf self.new (look_step heard (update_posted (sight_of sight.now)) look)) }
        ensures numbers { (look : UpdateIdentity → Option First) → AreOf self.old look
            → OnOk result ((k : ℕ) → update_at self.new k ≡ at_step heard (update_posted (sight_of sight.now)) look (update_at self.old) k) }
    {
        match update_in(sight) {
            Some(posting) => self.add(alloc, heard, &posting),
            None => Ok(()),
        }
    }
}

/// The update that a sight posts.
fn update_in<'a>(sight: &Sight<'a>) -> Option<Posting<'a>>
    ensures { option_map posting_of result ≡ update_posted (sight_of sight.now) }
{
    match sight {
        Sight::Sent {
            number,
            node,
            carried,
        } => match carried {
            Carried::Update(key) => Some(Posting {
                number: *number,
                maker: Maker::Node(*node),
                key: *key,
            }),
            _ => None,
        },
        Sight::Injected {
            number,
            outsider,
            carried,
        } => match carried {
            Carried::Update(key) => Some(Posting {
                number: *number,
                maker: Maker::Outsider(*outsider),
                key: *key,
            }),
            _ => None,
        },
        _ => None,
    }
}
