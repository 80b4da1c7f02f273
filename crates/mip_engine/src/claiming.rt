//! Addresses are claimed and given up, by nodes and by outsiders.

ghost use Rattle.std.specs.Prelude.{◌≡◌, ◌==◌, ◌<◌, IfSome, None, Some, option_map};
ghost use Rattle.mip_entries.specs.declared.entry.Entry.TheVariants.{Claimed};
ghost use Rattle.mip_words.specs.Holders.{holder_number};
ghost use Rattle.mip_links.specs.Nets.{refusal};
ghost use Rattle.mip_links.specs.Table.{link_of};
ghost use Rattle.mip_history.specs.Runs.{note};
ghost use Rattle.mip_history.specs.Questions.{holder_in};
ghost use Rattle.mip_history.specs.Claims.{claim_entry, claims};
ghost use Rattle.mip_history.specs.Homes.{given_up_on, gives_up, passes_to};
ghost use Rattle.mip_engine.specs.Engines.{IsFree, resident_of};
ghost use Rattle.mip_engine.specs.Standing.{Goes};

use crate::claimer::Claimer;
use crate::engine::Engine;
use mip_entries::Entry;
use mip_words::{Address, Holder, LinkId, Memory, NodeId};

/// The holder is this node.
fn is_node(who: Holder, node: NodeId) -> bool
    ensures { result ≡ (node.0 == holder_number who) }
{
    usize::from(node.0) == who.place()
}

impl Engine {
    fn claim_on(&mut self, by: Claimer, link: LinkId, address: Address) -> Result<(), Memory>
        requires link { link_of self.old.net.links address.0 ≡ Some link.0 }
        ensures { Goes result self.old self.new (λ s run. note (claim_entry (holder_number by.who) address link.0 (holder_in run.past address.0)) run) }
    {
        let entry = self.take_claim(by, link, address)?;
        self.note(entry)
    }

    /// Somebody claims an address, and has it unless somebody else does.
    pub fn claim(&mut self, who: Holder, address: Address) -> Result<(), Memory>
        requires { holder_number who < 40 }
        ensures { Goes result self.old self.new (λ s run. claims s (holder_number who) address run) }
    {
        match self.link_of(address) {
            Some(link) => self.claim_on(Claimer { who }, link, address),
            None => self.note(Entry::Idle),
        }
    }

    /// The mobile at home whose home address this is.
    #[tactic(auto, using(crate::proofs::PassingLaws::none_yet, crate::proofs::PassingLaws::first_here))]
    fn resident(&self, address: Address) -> Option<NodeId>
        ensures is { option_map (λ n. n.0) result ≡ resident_of self.now.nodes address.0 }
        ensures small { IfSome result (λ n. n.0 < 32) }
    {
        for number in 0..self.count() {
            if self.lives_at(NodeId(number), address) {
                return Some(NodeId(number));
            }
        }
        None
    }

    /// Somebody has an address that nobody had.
    pub(crate) fn hold(&mut self, by: Claimer, link: LinkId, address: Address) -> Result<(), Memory>
        requires free { refusal self.old.net (holder_number by.who) address.0 ≡ None }
        ensures { Goes result self.old self.new (λ s run. note (Claimed (holder_number by.who) link address) run) }
    {
        self.take_free(by, address)?;
        let who = by.who.number();
        self.note(Entry::Claimed { who, link, address })
    }

    /// A home address that was given up is its mobile's from here on, where that is at home.
    fn pass_on(&mut self, who: Holder, link: LinkId, address: Address) -> Result<(), Memory>
        requires free { IsFree self.old.net address.0 }
        ensures { Goes result self.old self.new (λ s run. passes_to (holder_number who) address link.0 run (resident_of self.old.nodes address.0)) }
    {
        let Some(node) = self.resident(address) else {
            return Ok(());
        };
        if is_node(who, node) {
            return Ok(());
        }
        let by = Claimer {
            who: Holder::Node(node),
        };
        self.hold(by, link, address)
    }

    fn give_up_on(&mut self, who: Holder, link: LinkId, address: Address) -> Result<(), Memory>
        requires { link_of self.old.net.links address.0 ≡ Some link.0 }
        ensures { Goes result self.old self.new (λ s run. given_up_on s (holder_number who) address run (Some link.0)) }
    {
        if self.release(who, address) {
            self.note(Entry::Released {
                who: who.number(),
                link,
                address,
            })?;
            return self.pass_on(who, link, address);
        }
        self.note(Entry::Idle)
    }

    /// Somebody gives an address up, if it holds it. A home address passes to its mobile, where that is at home.
    pub fn give_up(&mut self, who: Holder, address: Address) -> Result<(), Memory>
        ensures { Goes result self.old self.new (λ s run. gives_up s (holder_number who) address run) }
    {
        match self.link_of(address) {
            Some(link) => self.give_up_on(who, link, address),
            None => self.note(Entry::Idle),
        }
    }
}
