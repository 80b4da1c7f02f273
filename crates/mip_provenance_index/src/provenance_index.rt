ghost use Rattle.std.specs.Prelude.{◌≡◌, ◌∷◌, ◌++◌, [], List, Some, IfOk, OnOk, option_map};
ghost use Rattle.std.specs.Option.{option_and_then};
ghost use Rattle.mip_packets.specs.Says.{carried, key_of};
ghost use Rattle.mip_entries.specs.declared.entry.Entry.{Entry};
ghost use Rattle.mip_provenance.specs.Entries.{packet_in, declared_in};
ghost use Rattle.mip_provenance.specs.Marks.{mark_of, mark_in};
ghost use Rattle.mip_provenance.specs.Firsts.{key_in};
ghost use Rattle.mip_provenance.specs.declared.maker.Maker.TheVariants.{Node};
ghost use Rattle.mip_provenance.specs.Seen.{claim_of, pair_of, gives_it};
ghost use Rattle.mip_provenance_index.specs.Sights.{seen_in, token_posted};
ghost use Rattle.mip_provenance_index.specs.Told.{AreTold};
ghost use Rattle.mip_provenance_index.specs.Stands.{StandsFor, IsNext, IsHeard};
ghost use Rattle.mip_provenance_index.specs.Answers.{pair_by_maker, is_used_by, is_otherwise_by, claims_looked, key_looked, mark_looked};

use crate::addresses::Addresses;
use crate::early::Early;
use crate::first::First;
use crate::heard::{Heard, first_alone, first_both};
use crate::made::Made;
use crate::names::Names;
use crate::nodes::Nodes;
use crate::seeing::{is_mute, sight, token_sighted};
use crate::updates::Updates;
use mip_entries::Entry;
use mip_packets::UpdateIdentity;
use mip_provenance::{AcceptedUpdate, Claim, Maker, Mark, Pair, Signed, key_said};
use mip_tokens::Witness;
use mip_words::{Address, Memory, NodeId, Token};
use std::alloc::Global;

/// A history as it goes on, for the marks of its acceptances.
#[derive(Drop)]
pub struct ProvenanceIndex {
    addresses: Addresses,
    nodes: Nodes,
    names: Names,
    heard: Heard,
    early: Early,
    made: Made,
    updates: Updates,
}

/// The update in a packet, where there is one and it carries one.
fn key_of_packet(packet: Option<&[u8]>) -> Option<UpdateIdentity<'_>>
    ensures { option_map key_of result ≡ option_and_then (λ bytes. key_in (carried bytes)) (option_map (λ p. p.now) packet.entry) }
{
    match packet {
        Some(bytes) => key_said(bytes),
        None => None,
    }
}

impl ProvenanceIndex {
    /// Of a history with no entry yet.
    pub fn new(alloc: Global) -> ProvenanceIndex
        ensures { StandsFor result [] }
    {
        ProvenanceIndex {
            addresses: Addresses::new(alloc),
            nodes: Nodes::new(alloc),
            names: Names::new(alloc),
            heard: Heard::new(alloc),
            early: Early::new(alloc),
            made: Made::new(alloc),
            updates: Updates::new(alloc),
        }
    }

    /// Takes one more entry. Where it says that packet K was heard, the packet has this token. Gives the token of the packet that the entry
    /// posts.
    pub fn note(
        &mut self,
        alloc: Global,
        entry: &Entry,
        heard: Option<Token>,
    ) -> Result<Option<Token>, Memory>
        ensures stands { (past : List Entry) → StandsFor self.old past → IsNext past entry.now → IsHeard past entry.now (option_map (λ t. t.0) heard)
            → OnOk result (StandsFor self.new (past ++ entry.now ∷ [])) }
        ensures token { IfOk result (λ token. option_map (λ t. t.0) token ≡ token_posted entry.now) }
    {
        if is_mute(entry) {
            return Ok(None);
        }
        if let Entry::Heard { outsider, .. } = entry {
            self.heard.hear(*outsider, heard)?;
            return Ok(None);
        }
        let sight = sight(entry, heard);
        self.names.note(&self.nodes, &sight)?;
        self.early.note(&self.heard, &sight)?;
        self.updates.note(alloc, self.heard.len(), &sight)?;
        self.made.note(&sight)?;
        self.heard.note(&sight)?;
        self.nodes.note(&sight)?;
        self.addresses.note(entry)?;
        Ok(token_sighted(&sight))
    }

    /// The pair that a mobile made an update from, where it gives the authenticator.
    fn pair_made(
        &self,
        careof: Option<u16>,
        signed: &Signed,
        first: &First,
        node: NodeId,
    ) -> Option<Pair>
        ensures { option_map pair_of result ≡ pair_by_maker self.now careof (gives_it signed.now) first.now (Node node) }
    {
        match self.made.made(node, first.number) {
            Some(pair) => match pair.as_asked(careof) {
                Some(pair) => signed.if_by(pair),
                None => None,
            },
            None => None,
        }
    }

    /// The pair behind the first packet of an update.
    fn pair(&self, careof: Option<u16>, signed: &Signed, first: &First) -> Option<Pair>
        ensures { option_map pair_of result ≡ pair_by_maker self.now careof (gives_it signed.now) first.now first.now.maker }
    {
        match first.maker {
            Maker::Node(node) => self.pair_made(careof, signed, first, node),
            Maker::Outsider(outsider) => {
                let arrivals = self.heard.front(first.heard);
                match careof {
                    None => first_alone(arrivals, signed, outsider),
                    Some(_) => first_both(arrivals, signed, outsider),
                }
            }
        }
    }

    /// Causes 2 and 3; where neither holds, the origin.
    fn judged(&self, home: &Claim, careof: &Option<Claim>, update: u64) -> Mark
        ensures { result ≡ claims_looked self.now (claim_of home.now) (option_map claim_of careof.now) update }
    {
        if self.is_used(home, careof) {
            return Mark::Forged(2);
        }
        if self.is_otherwise(home, careof) {
            return Mark::Forged(3);
        }
        let hot = self.names.number(home.token);
        let cot = match careof {
            Some(claim) => Some(self.names.number(claim.token)),
            None => None,
        };
        Mark::Origin { hot, cot, update }
    }

    /// An outsider had used one of the tokens before it came to it.
    fn is_used(&self, home: &Claim, careof: &Option<Claim>) -> bool
        ensures { result ≡ is_used_by self.now (claim_of home.now) (option_map claim_of careof.now) }
    {
        if self.early.is_used(home.token) {
            return true;
        }
        match careof {
            Some(claim) => self.early.is_used(claim.token),
            None => false,
        }
    }

    /// One of the tokens was sent under another name.
    fn is_otherwise(&self, home: &Claim, careof: &Option<Claim>) -> bool
        ensures { result ≡ is_otherwise_by self.now (claim_of home.now) (option_map claim_of careof.now) }
    {
        if self.names.is_otherwise(home) {
            return true;
        }
        match careof {
            Some(claim) => self.names.is_otherwise(claim),
            None => false,
        }
    }

    /// The mark of an acceptance whose update was found.
    fn mark_with(
        &self,
        accepted: &AcceptedUpdate,
        own: Address,
        key: &UpdateIdentity,
        witness: Option<&Witness>,
    ) -> Mark
        ensures { result ≡ key_looked self.now accepted.now own (Some (key_of key.now)) }
    {
        let Some(first) = self.updates.first(accepted.number) else {
            return Mark::Forged(1);
        };
        let signed = Signed {
            own,
            careof: accepted.careof,
            key: *key,
            witness,
        };
        let Some(pair) = self.pair(accepted.careof_index, &signed, &first) else {
            return Mark::Forged(1);
        };
        let life = self.nodes.known(accepted.node.0).life;
        let home = accepted.home_claim(life, &pair);
        let careof = accepted.careof_claim(life, &pair);
        self.judged(&home, &careof, first.number)
    }

    /// The mark by look-ups.
    #[tactic(auto, unfolding(crate::specs::Answers::mark_looked))]
    fn looked(
        &self,
        accepted: &AcceptedUpdate,
        packet: Option<&[u8]>,
        witness: Option<&Witness>,
    ) -> Mark
        ensures { result ≡ mark_looked self.now accepted.now (option_map (λ p. p.now) packet.entry) }
    {
        let Some(own) = self.addresses.address(accepted.node) else {
            return Mark::Forged(1);
        };
        let Some(key) = key_of_packet(packet) else {
            return Mark::Forged(1);
        };
        self.mark_with(accepted, own, &key, witness)
    }

    /// The mark of an update that is accepted next, where the packet that carried it has these bytes. What the node's check found may be
    /// given: where it is of the pair that is asked for, nothing is hashed, and the mark is the same.
    pub fn mark(
        &self,
        accepted: &AcceptedUpdate,
        packet: Option<&[u8]>,
        witness: Option<&Witness>,
    ) -> Mark
        ensures seen { (past : List Entry) → StandsFor self.now past → option_map (λ p. p.now) packet.entry ≡ packet_in past accepted.now.number
            → result ≡ mark_of (seen_in past) accepted.now (declared_in past accepted.now.node.0) }
        ensures exact { (past : List Entry) → StandsFor self.now past → AreTold past → option_map (λ p. p.now) packet.entry ≡ packet_in past accepted.now.number
            → result ≡ mark_in past accepted.now }
    {
        self.looked(accepted, packet, witness)
    }
}
