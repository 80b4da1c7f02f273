ghost use Rattle.std.specs.Prelude.{◌≡◌, ◌==◌, [], OnOk, filter, not};
ghost use Rattle.mip_rules_mobile.specs.HomeQuestions.{next_to, with_next};

use mip_rules_mobile::Numbering;
use mip_words::{Address, Memory};
use std::alloc::Global;
use std::marker::Model;

/// The sequences that the next updates to home agents take.
#[derive(Drop)]
pub struct Numberings {
    list: Vec<Numbering>,
}

impl Model for Numberings {
    ghost use Rattle.std.specs.Prelude.{List};
    ghost use Rattle.mip_rules_mobile.specs.declared.numbering.Numbering.{Numbering};

    ghost Value = { List Numbering };

    ghost view = { λ n. n.list.items };
}

impl Numberings {
    pub fn new(alloc: Global) -> Numberings
        ensures { result ≡ [] }
    {
        Numberings {
            list: Vec::new(alloc),
        }
    }

    /// The sequence that the next update to an agent takes: 1 where there was none.
    pub fn next_to(&self, agent: Address) -> u16
        ensures { result ≡ next_to agent self.now }
    {
        next_of(&self.list, agent)
    }

    /// The next update to an agent takes this sequence.
    pub fn set(&mut self, agent: Address, next: u16) -> Result<(), Memory>
        ensures { OnOk result (self.new ≡ with_next agent next self.old) }
    {
        put(&mut self.list, agent, next)
    }

    /// Forgets all of them.
    pub fn clear(&mut self)
        ensures { self.new ≡ [] }
    {
        self.list.clear();
    }
}

fn next_of(list: &[Numbering], agent: Address) -> u16
    ensures { result ≡ next_to agent list.now }
{
    for numbering in list {
        if numbering.agent.0 == agent.0 {
            return numbering.next;
        }
    }
    1
}

fn put(list: &mut Vec<Numbering>, agent: Address, next: u16) -> Result<(), Memory>
    ensures { OnOk result (list.new.items ≡ with_next agent next list.old.items) }
{
    forget(list, agent);
    list.push(Numbering { agent, next })?;
    Ok(())
}

fn forget(list: &mut Vec<Numbering>, agent: Address)
    ensures { list.new.items ≡ filter (λ n. not (n.agent.0 == agent.0)) list.old.items }
{
    list.retain(|numbering| numbering.agent.0 != agent.0);
}
