//! The laws of a list of agents, each the contract of a function that does nothing.

ghost use Rattle.std.specs.Prelude.{◌≡◌, ℕ, ◌≤◌, List, map};
ghost use Rattle.std.specs.List.{filter, AllByRecursion};
ghost use Rattle.mip_discovery.specs.Heard.{Heard, is_of};
ghost use Rattle.mip_discovery.specs.Listed.{listed, live_listed};
ghost use Rattle.mip_discovery.specs.ListedLaws.{IsBefore, InOrder, live_as, last_heard};

/// The list is by falling preference, ties in the order in which the agents arrived.
pub fn list_is_in_order()
    ensures all { (past : List Heard) → InOrder IsBefore (listed past) }
    ensures live { (past : List Heard) (now : ℕ) → InOrder IsBefore (live_listed now past) }
{}

/// Of each address the list has exactly the agent as it was last heard, while its life lasts.
pub fn each_agent_is_as_last_heard()
    ensures { (past : List Heard) (address now : ℕ) → AllByRecursion (λ h. h.at ≤ now) past
        → filter (is_of address) (map (λ x. x.agent) (live_listed now past)) ≡ live_as now (last_heard address past) }
{}
