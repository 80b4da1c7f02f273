//! Laws on marks. The functions do nothing: what they ensure is the law.

ghost use Rattle.std.specs.Prelude.{◌≡◌, ℕ, List, Option};
ghost use Rattle.mip_entries.specs.declared.entry.Entry.{Entry};
ghost use Rattle.mip_provenance.specs.declared.accepted_update.AcceptedUpdate.{AcceptedUpdate};
ghost use Rattle.mip_provenance.specs.declared.mark.Mark.TheVariants.{Origin, Forged};
ghost use Rattle.mip_provenance.specs.Sights.{sights};
ghost use Rattle.mip_provenance.specs.Marks.{mark_in};
ghost use Rattle.mip_provenance.specs.Laws.{AreLawful};
ghost use Rattle.mip_provenance.specs.Origins.{HasOrigin};
ghost use Rattle.mip_provenance.specs.Means.{HadTokens, IsCause};

/// Where nobody passes on, hears, is handed or uses a test that was not posted before, a mark that is not forged is an
/// origin: the packets that it names stand in the history, and both tokens had reached the maker of the update before
/// its first packet was posted.
pub fn unforged_has_its_origin()
    ensures { (past : List Entry) (a : AcceptedUpdate) (hot : ℕ) (cot : Option ℕ) (update : ℕ) → AreLawful (sights past)
        → mark_in past a ≡ Origin hot cot update → HasOrigin past a hot cot update }
{}

/// Of every history: where the node sent both tokens, and both had reached the maker of the update before it posted it, which a
/// mobile tells that it made of them, the mark has not cause 1. A mark with cause 2 has a token that an outsider used before it
/// came to it, one with cause 3 a token that was sent under another name, and there is no other cause.
pub fn forged_marks_have_their_cause()
    ensures first { (past : List Entry) (a : AcceptedUpdate) (hot : ℕ) (cot : Option ℕ) (update : ℕ)
        → HadTokens past a hot cot update → mark_in past a ≡ Forged 1 → ⊥ }
    ensures cause { (past : List Entry) (a : AcceptedUpdate) (cause : ℕ) → mark_in past a ≡ Forged cause → IsCause (sights past) cause }
{}
