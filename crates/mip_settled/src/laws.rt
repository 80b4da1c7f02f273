//! The laws, each the contract of a function that does nothing.

ghost use Rattle.std.specs.Prelude.{◌≡◌, ◌≢◌, ◌≤◌, ℕ, List, Option, Some, is_some, slice_get};
ghost use Rattle.mip_words.specs.declared.address.Address.{Address};
ghost use Rattle.mip_rules_mobile.specs.HomeQuestions.{registered_agent};
ghost use Rattle.mip_rules_mobile.specs.RowQuestions.{bound_row_of};
ghost use Rattle.mip_links.specs.Table.{holder_outside};
ghost use Rattle.mip_schedule.specs.declared.event.Event.{Event};
ghost use Rattle.mip_history.specs.Setup.{Setup};
ghost use Rattle.mip_history.specs.Setup.Kind.{Mobile};
ghost use Rattle.mip_history.specs.Knowing.{now_in, mobile_known_in};
ghost use Rattle.mip_history.specs.Permitted.{run_of};
ghost use Rattle.mip_history.specs.Told.{present_in, agent_in, is_bound_in};
ghost use Rattle.mip_history.specs.Found.{address_of};

/// A mobile uses the address at which its entries tell that it is present, and none where they tell of none.
pub fn found_as_told()
    ensures { (s : Setup) (events : List Event) (n : ℕ) (own : Address) (agent : Option Address)
        → slice_get s.hosts n ≡ Some (record { address = own; kind = Mobile agent })
        → present_in (run_of s events).past n own ≡ address_of own (mobile_known_in s (run_of s events) n own agent).standing }
{}

/// A mobile is registered at a moment with the agent with which its entries tell that it is. Its number is no outsider's, as in
/// every schedule that was read.
pub fn registered_as_told()
    ensures { (s : Setup) (events : List Event) (n : ℕ) (own : Address) (agent : Option Address)
        → slice_get s.hosts n ≡ Some (record { address = own; kind = Mobile agent })
        → ((o : ℕ) → n ≢ holder_outside o) → (now : ℕ)
        → agent_in now (run_of s events).past n ≡ registered_agent (mobile_known_in s (run_of s events) n own agent) now }
{}

/// A mobile has a binding with a peer, now or at a later moment, where its entries tell that it has. As it leaves its link, they
/// tell of the end of those alone that last.
pub fn bound_as_told()
    ensures { (s : Setup) (events : List Event) (n : ℕ) (own : Address) (agent : Option Address) (peer : Address) (now : ℕ)
        → slice_get s.hosts n ≡ Some (record { address = own; kind = Mobile agent })
        → now_in s (run_of s events) ≤ now
        → is_bound_in now (run_of s events).past n peer ≡ is_some (bound_row_of (mobile_known_in s (run_of s events) n own agent) now peer) }
{}
