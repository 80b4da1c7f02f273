ghost use Rattle.std.specs.Prelude.{◌≡◌, ◌≤◌, IfOk};
ghost use Rattle.mip_rules_mobile.specs.Questions.{fresh};
ghost use Rattle.mip_mobile_state.specs.Seen.{seen};

use crate::agents::Agents;
use crate::numberings::Numberings;
use mip_bulist::List;
use mip_correspondent::Correspondent;
use mip_nonce::Secrets;
use mip_rules_mobile::discovery::Discovery;
use mip_rules_mobile::{Attachment, HomeUpdate, Peer, Registered};
use mip_words::{Address, Memory, Moment};
use std::alloc::Global;

/// What a mobile keeps of its past, one question a field.
#[derive(Drop)]
pub struct MobileState {
    /// The home address, which is its correspondent part's own.
    pub home: Address,
    pub last: Moment,
    pub part: Correspondent,
    pub declared: Option<Address>,
    pub standing: Attachment,
    pub places: u8,
    pub registered: Option<Registered>,
    pub latest: Option<HomeUpdate>,
    pub agent: Option<Address>,
    pub owes: bool,
    pub numberings: Numberings,
    pub wait: u64,
    pub discovery: Option<Discovery>,
    pub discoveries: u16,
    pub found: Agents,
    pub tried: usize,
    pub chosen: Option<Address>,
    pub solicitations: u16,
    pub cookies: u64,
    pub list: List,
    pub peers: [Peer; 16],
}

/// For how many homes the correspondent part has room.
pub(crate) const HOMES: u32 = 16;

/// Nothing is known of a peer.
pub(crate) const FRESH_PEER: Peer = Peer {
    touched: false,
    bound: None,
    wait: 0,
};

impl MobileState {
    /// What a new mobile keeps.
    pub fn new(
        alloc: Global,
        home: Address,
        declared: Option<Address>,
        secrets: Secrets,
        numbers: u8,
    ) -> Result<MobileState, Memory>
        requires some { 1 ≤ numbers }
        requires few { numbers ≤ 8 }
        ensures known { IfOk result (λ k. seen k ≡ fresh home declared numbers secrets) }
        ensures home { IfOk result (λ k. k.home ≡ home) }
    {
        Ok(MobileState {
            home,
            last: Moment(0),
            part: Correspondent::new(alloc, home, secrets, HOMES, numbers)?,
            declared,
            standing: Attachment::AtHome,
            places: 0,
            registered: None,
            latest: None,
            agent: None,
            owes: false,
            numberings: Numberings::new(alloc),
            wait: 0,
            discovery: None,
            discoveries: 1,
            found: Agents::new(alloc),
            tried: 0,
            chosen: None,
            solicitations: 1,
            cookies: 0,
            list: List::new(alloc)?,
            peers: [FRESH_PEER; 16],
        })
    }

    /// What a new life of a mobile begins with: it has its home address, its declared agent, its numbers and where it stands from
    /// the last.
    pub fn again(&self, alloc: Global, secrets: Secrets) -> Result<MobileState, Memory>
        ensures known { IfOk result (λ k. seen k ≡
            record (fresh self.now.home self.now.declared self.now.part.known.cache.numbers secrets) { last = self.now.last; standing = self.now.standing }) }
        ensures home { IfOk result (λ k. k.home ≡ self.now.home) }
    {
        let mut kept = MobileState::new(
            alloc,
            self.home,
            self.declared,
            secrets,
            self.part.numbers(),
        )?;
        kept.last = self.last;
        kept.standing = self.standing;
        Ok(kept)
    }
}
