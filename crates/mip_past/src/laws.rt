//! The laws, each the contract of a function that does nothing; `specs/AsAsked` has their statements, but for the last two. The first four speak of the
//! places behind the entries of the first k events, since what a node knows is stated between two events.

ghost use Rattle.std.specs.Prelude.{ℕ, ◌<◌, List};
ghost use Rattle.mip_words.specs.declared.address.Address.{Address};
ghost use Rattle.mip_symbols.specs.Places.{AreFew};
ghost use Rattle.mip_schedule.specs.Contents.{Content};
ghost use Rattle.mip_schedule.specs.Lawful.{IsLawful};
ghost use Rattle.mip_schedule.specs.declared.event.Event.{Event};
ghost use Rattle.mip_history.specs.Setup.{Setup};
ghost use Rattle.mip_past.specs.AsAsked.{IsFront, IsPermittedFront, AreKeepersAsAsked, AreAgentsAsAsked, AreMobilesAsAsked, IsHolderFound, IsHeldBound, AreRegistered};
ghost use Rattle.mip_past.specs.HearingLaws.{AreListedAsAsked};
ghost use Rattle.mip_past.specs.PlanningLaws.{ArePlansAsAsked};
ghost use Rattle.mip_past.specs.MeetingLaws.{MeetsPremises};
ghost use Rattle.mip_past.specs.OneNumber.{IsOfTheLast};
ghost use Rattle.mip_past.specs.Sending.{IsAway, IsReadAsSent};
ghost use Rattle.mip_past.specs.SendingLaws.{IsThroughAsAsked};

/// A history only grows. So what lies before the place behind some first events is what these leave, at their moment; and each
/// node has its own address there.
pub fn places_are_fronts()
    ensures run { (s : Setup) (events : List Event) (k : ℕ) → IsFront s events k }
    ensures permitted { (c : Content) (k : ℕ) → IsPermittedFront c k }
{}

/// What is asked of a correspondent there is what it keeps, and what is asked of a mobile what its correspondent part keeps: the
/// care-of address that is held for a home, whether one is held under some number, and the sequence that the next update has to
/// come after.
pub fn keepers_are_as_asked()
    ensures { (s : Setup) (events : List Event) (k : ℕ) → AreKeepersAsAsked s events k }
{}

/// What is asked of a home agent there is what it keeps: the registered care-of address of a home, its end, the last sequence, and the
/// work that it has ahead. A home is registered exactly where some agent has it registered.
pub fn agents_are_as_asked()
    ensures { (s : Setup) (events : List Event) (k : ℕ) → AreAgentsAsAsked s events k }
{}

/// The other agents that an agent is asked for there are those that it knows of and that are live, in their order.
pub fn listed_agents_are_as_asked()
    ensures { (c : Content) (k : ℕ) → AreListedAsAsked c k }
{}

/// The prefix plan that is asked of the events that have begun is the one that an agent keeps, and leaves the same seconds; before the
/// first plan of its life lifetimes never fall, and are asked since the start where the agent counts them from 0.
pub fn plans_are_as_asked()
    ensures { (s : Setup) (events : List Event) (k : ℕ) → ArePlansAsAsked s events k }
{}

/// What is asked of a mobile there is what it knows: the address that it uses, the number of the bindings that it asks for, the agent
/// with which it is registered, and whether it has a binding with a peer. If it leaves there, it gives up the address that is asked; while it is registered, its agent for
/// tunnels is the one that is asked. Every other node uses its own address.
pub fn mobiles_are_as_asked()
    ensures { (s : Setup) (events : List Event) (k : ℕ) → AreMobilesAsAsked s events k }
{}

/// At every place, also within an event: behind the opening claims nobody claims an address that somebody else is found to hold, a
/// claim in vain names the holder that is found, and an address is given up by nobody but the holder that is found.
pub fn one_holder_is_found()
    ensures { (c : Content) (place : ℕ) → IsHolderFound c place }
{}

/// At every place, also within an event: a care-of address that is found to be held, under whatever number, was accepted by an update
/// whose packet had just been handed to the node, in its present life, and no later one has ended it. Behind the entries of some first events, one that is
/// found to be registered at an agent was registered by the last update of its home in the agent's present life, which the mobile
/// with that home had sent under its shield.
pub fn answers_have_their_update()
    ensures held { (c : Content) (place : ℕ) → IsHeldBound c place }
    ensures registered { (c : Content) (k : ℕ) → AreRegistered c k }
{}

/// Where each acceptance has number 0, as in a schedule of version 1, a home is held at the care-of address of its last acceptance
/// alone, to the end of that, and the sequence of that acceptance is kept. No earlier one counts.
pub fn one_number_leaves_the_last()
    ensures { (home now : ℕ) → IsOfTheLast home now }
{}

/// A home registration that a mobile sends is read as one to its agent, and a deregistration as none: so where the last one went is
/// told by the packets that were sent.
pub fn home_registrations_are_read()
    ensures { (home careof agent : Address) (sequence : ℕ) → IsAway home careof agent → sequence < 65536 → IsReadAsSent home careof agent sequence }
{}

/// The agent of a mobile for tunnels, deregistrations and prefix messages is the one that is asked, whether the mobile is registered or
/// not: as long as all home registrations that it ever sent, and their ends, can be spelled.
pub fn agents_of_mobiles_are_as_asked()
    ensures { (s : Setup) (events : List Event) (k : ℕ) → IsThroughAsAsked s events k }
{}

/// What these laws ask of a setup and of a run, each schedule has that was read: no two nodes have one address, a node's number is small
/// and no outsider's, a home has a binding number at least, and no moment reaches 2 to the 62 ms.
pub fn schedules_meet_the_premises()
    ensures { (c : Content) → IsLawful c → AreFew c.declarations → MeetsPremises c }
{}
