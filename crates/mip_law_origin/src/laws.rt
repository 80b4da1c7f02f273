//! The laws, each the contract of a function that does nothing.

ghost use Rattle.std.specs.Prelude.{◌≡◌, ◌≤◌, ℕ, List, [], ◌∷◌, ◌++◌, Option, Some};
ghost use Rattle.std.specs.List.{AllByRecursion, sum_by};
ghost use Rattle.mip_entries.specs.declared.entry.Entry.{Entry};
ghost use Rattle.mip_schedule.specs.Contents.{Content};
ghost use Rattle.mip_rules_correspondent.specs.declared.identity.Identity.{Identity};
ghost use Rattle.mip_rules_correspondent.specs.declared.known.Known.{Known};
ghost use Rattle.mip_rules_correspondent.specs.Calls.{Call};
ghost use Rattle.mip_rules_correspondent.specs.Doing.{transition_of};
ghost use Rattle.mip_provenance.specs.declared.accepted_update.AcceptedUpdate.{AcceptedUpdate};
ghost use Rattle.mip_provenance.specs.declared.mark.Mark.TheVariants.{Origin};
ghost use Rattle.mip_provenance.specs.Entries.{update_accepted};
ghost use Rattle.mip_provenance.specs.Marks.{mark_in};
ghost use Rattle.mip_history.specs.Setup.{setup_of};
ghost use Rattle.mip_provenance.specs.Origins.{HasOrigin};
ghost use Rattle.mip_words.specs.EachAfter.{EachAfter};
ghost use Rattle.mip_history.specs.Passing.{waited_by};
ghost use Rattle.mip_history.specs.Permitted.{permitted};
ghost use Rattle.mip_law_origin.specs.OwnTests.{SendsOwnTests, SendsPlainData};
ghost use Rattle.mip_law_origin.specs.OwnHistoriesLaws.{IsOwnEntry, ArePlain};
ghost use Rattle.mip_law_origin.specs.Origins.{IsOriginOf};
ghost use Rattle.mip_law_origin.specs.Marked.{EachIsMarked};
ghost use Rattle.mip_law_origin.specs.MarkedLaws.{EachIsFollowed};

/// Each test that a correspondent sends is its own: it has the index of the newest nonce of this life, and the token for the
/// address that it goes to (RFC 6275 sections 9.4.3 and 9.4.4).
pub fn tests_are_own()
    ensures { (me : Identity) (k : Known) (now : ℕ) (c : Call) → SendsPlainData c → AllByRecursion (SendsOwnTests me now) (transition_of me k now c).steps }
{}

/// In the permitted history of every schedule, each accepted update is followed by its mark, whoever accepted it.
pub fn each_acceptance_is_followed()
    ensures { (c : Content) → EachIsFollowed [] (permitted c) }
{}

/// In the permitted history of a schedule of plain data, an accepted update that is not forged has its origin, whoever accepted
/// it: the node sent both tokens in its present life, to that home and that care-of address, and both had reached the maker of
/// the update before its first packet was posted. Where the waits add up to at most 36,000 s, both tokens are those of the
/// nonces that were valid at the acceptance. `stands` speaks of any update at any place of the history, and `nonces` of the one that the
/// entry at that place accepts.
pub fn unforged_acceptances_have_their_origin()
    ensures stands { (c : Content) → ArePlain c → (before : List Entry) (e : Entry) (after : List Entry) → permitted c ≡ before ++ e ∷ after
        → (a : AcceptedUpdate) (hot : ℕ) (cot : Option ℕ) (update : ℕ) → mark_in before a ≡ Origin hot cot update → HasOrigin before a hot cot update }
    ensures nonces { (c : Content) → ArePlain c → sum_by waited_by c.events ≤ 36000000
        → (before : List Entry) (e : Entry) (after : List Entry)
        → permitted c ≡ before ++ e ∷ after
        → (a : AcceptedUpdate) → update_accepted e ≡ Some a → (hot : ℕ) (cot : Option ℕ) (update : ℕ) → mark_in before a ≡ Origin hot cot update
        → IsOriginOf (setup_of c) before e a hot cot update }
{}

/// What each node sends in such a history: a test that a correspondent or a mobile sends is its own, a test that an agent sends had been
/// handed to it, only agents register homes, and a mobile makes each update from tests that had been handed to it.
pub fn entries_are_own()
    ensures { (c : Content) → ArePlain c → EachAfter (IsOwnEntry (setup_of c)) [] (permitted c) }
{}

/// Each accepted update of such a history is followed by its mark, and the mark means what it says.
pub fn acceptances_are_marked()
    ensures { (c : Content) → ArePlain c → sum_by waited_by c.events ≤ 36000000 → EachIsMarked (setup_of c) (permitted c) }
{}
