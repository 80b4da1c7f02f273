//! The laws, each the contract of a function that does nothing.

ghost use Rattle.std.specs.Prelude.{◌≡◌, ◌≢◌, ◌++◌, ℕ, List, Option, Some, slice_get};
ghost use Rattle.mip_words.specs.declared.address.Address.{Address};
ghost use Rattle.mip_links.specs.Table.{holder_outside};
ghost use Rattle.mip_schedule.specs.declared.event.Event.{Event};
ghost use Rattle.mip_history.specs.Setup.{Setup};
ghost use Rattle.mip_history.specs.Setup.Kind.{Agent, Mobile};
ghost use Rattle.mip_history.specs.Runs.{agent_past_at, mobile_past_at};
ghost use Rattle.mip_history.specs.Permitted.{run_of};
ghost use Rattle.mip_law_claims.specs.Seekers.{EachMayFindTaken, NoAgentFindsTaken};
ghost use Rattle.mip_law_claims.specs.Claimings.{Claiming, claimings_told, agent_claimings, searches_told, mobile_searches, releases_told, mobile_releases};
ghost use Rattle.mip_law_claims.specs.Holdings.{HoldsWhatItClaimed, HoldsWhatItUses};

/// Only a mobile or an outsider finds an address taken. A home agent claims a home address where its place answers that it may have
/// it, and the table then says the same; so where no node's number is an outsider's, as in every schedule that was read, no agent
/// finds one taken.
pub fn taken_names_no_agent()
    ensures seeker { (s : Setup) (events : List Event) → EachMayFindTaken s (run_of s events).past }
    ensures agent { (s : Setup) (events : List Event) → NoAgentFindsTaken s (run_of s events).past }
{}

/// What the steps of a home agent claim and give up in its present life is what the entries tell of it last, one for one and in
/// order: each address that a step claims is claimed and never taken, each that a step gives up is released; and nothing else is told
/// of it since. About an address that is on no link nothing is done. The agent's number is no outsider's, as in every schedule that
/// was read. RFC 6275 sections 10.3.1, 10.3.2 and 10.4.1
pub fn agents_claim_as_told()
    ensures { (s : Setup) (events : List Event) (n : ℕ) (own : Address) (preference life room : ℕ) (serves : List Address)
        → slice_get s.hosts n ≡ Some (record { address = own; kind = Agent preference life room serves }) → ((o : ℕ) → n ≢ holder_outside o)
        → (front : List Claiming) × (claimings_told n (run_of s events).past ≡ front ++ agent_claimings s.links (agent_past_at (run_of s events) n)) }
{}

/// The address of a home that an agent has claimed and not given up is held by it, where the address is on a link.
/// RFC 6275 section 10.4.1
pub fn agents_hold_what_they_claimed()
    ensures { (s : Setup) (events : List Event) (n : ℕ) (own : Address) (preference life room : ℕ) (serves : List Address)
        → slice_get s.hosts n ≡ Some (record { address = own; kind = Agent preference life room serves }) → ((o : ℕ) → n ≢ holder_outside o)
        → HoldsWhatItClaimed s (run_of s events) n serves }
{}

/// What the steps of a mobile claim, through all its lives, is what the entries tell of it, one for one and in order: each address
/// other than its home address that a step claims is claimed and never taken, and each that a step finds taken is told as taken, with
/// the same holder. The home address is left out, since it passes to its mobile at home without a step. About an address that is on no
/// link nothing is done. RFC 6275 section 11.5.1
pub fn mobiles_claim_as_told()
    ensures { (s : Setup) (events : List Event) (n : ℕ) (own : Address) (agent : Option Address)
        → slice_get s.hosts n ≡ Some (record { address = own; kind = Mobile agent })
        → ((o : ℕ) → n ≢ holder_outside o) → searches_told own n (run_of s events).past ≡ mobile_searches s.links own (mobile_past_at (run_of s events) n) }
{}

/// A mobile holds the care-of address that it uses, where the address is on a link: since it claimed the address nobody else could, and
/// by no call but a move does it give one up. RFC 6275 section 11.5.1
pub fn mobiles_hold_what_they_use()
    ensures { (s : Setup) (events : List Event) (n : ℕ) (own : Address) (agent : Option Address)
        → slice_get s.hosts n ≡ Some (record { address = own; kind = Mobile agent })
        → ((o : ℕ) → n ≢ holder_outside o) → HoldsWhatItUses s (run_of s events) n own agent }
{}

/// What the steps of a mobile give up, through all its lives, is what the entries tell of it, one for one and in order: each address
/// other than its home address that a step gives up is released and leaves no `idle`, since the mobile holds it. The home address is
/// left out, since a mobile gives it up where its place answers that it may have it. About an address that is on no link nothing is
/// done. RFC 6275 section 11.5.1
pub fn mobiles_give_up_as_told()
    ensures { (s : Setup) (events : List Event) (n : ℕ) (own : Address) (agent : Option Address)
        → slice_get s.hosts n ≡ Some (record { address = own; kind = Mobile agent })
        → ((o : ℕ) → n ≢ holder_outside o) → releases_told own n (run_of s events).past ≡ mobile_releases s.links own (mobile_past_at (run_of s events) n) }
{}
