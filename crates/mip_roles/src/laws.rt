//! The laws by which a node stands for its past, and by which what it answers is whole.

ghost use Rattle.std.specs.Prelude.{◌≡◌, ℕ, List, [], Option};
ghost use Rattle.std.specs.List.{AllByRecursion};
ghost use Rattle.mip_words.specs.declared.address.Address.{Address};
ghost use Rattle.mip_nonce.specs.Secrets.{Life};
ghost use Rattle.mip_entries.specs.Stamped.{Stamped};
ghost use Rattle.mip_outside.specs.Places.{Around};
ghost use Rattle.mip_rules_correspondent.specs.declared.identity.Identity.{Identity};
ghost use Rattle.mip_rules_correspondent.specs.Calls as correspondents;
ghost use Rattle.mip_rules_correspondent.specs.Doing as correspondent_doing;
ghost use Rattle.mip_rules_correspondent.specs.Questions as correspondent_questions;
ghost use Rattle.mip_rules_correspondent.specs.Steps as correspondent_steps;
ghost use Rattle.mip_rules_correspondent.specs.Transitions as correspondent_transitions;
ghost use Rattle.mip_rules_agent.specs.declared.identity.Identity as agent;
ghost use Rattle.mip_rules_agent.specs.Calls as agents;
ghost use Rattle.mip_rules_agent.specs.Doing as agent_doing;
ghost use Rattle.mip_rules_agent.specs.Questions as agent_questions;
ghost use Rattle.mip_rules_agent.specs.Steps as agent_steps;
ghost use Rattle.mip_rules_agent.specs.Transitions as agent_transitions;
ghost use Rattle.mip_rules_mobile.specs.Calls as mobiles;
ghost use Rattle.mip_rules_mobile.specs.Doing as mobile_doing;
ghost use Rattle.mip_rules_mobile.specs.HomeQuestions.{home_of};
ghost use Rattle.mip_rules_mobile.specs.Questions as mobile_questions;
ghost use Rattle.mip_rules_mobile.specs.Steps as mobile_steps;
ghost use Rattle.mip_rules_mobile.specs.Transitions as mobile_transitions;
ghost use Rattle.mip_history.specs.Setup.{Kind};
ghost use Rattle.mip_history.specs.Calls.{Call};
ghost use Rattle.mip_roles.specs.Calls.{asked, IsAskable, CanAsk};
ghost use Rattle.mip_roles.specs.declared.call.Call as asks;
ghost use Rattle.mip_roles.specs.declared.role.Role.{Role};
ghost use Rattle.mip_roles.specs.Roles.{answers_to, last_of, new_role};
ghost use Rattle.mip_roles.specs.RolesLaws.{IsWhole};

/// Whatever a role answers is whole: a packet has its fixed header.
#[tactic(auto, using(crate::proofs::WholeLaws::role_whole, crate::proofs::WholeLaws::can_ask))]
pub fn answers_are_whole()
    ensures whole { (around : Around) (role : Role) (now : ℕ) (call : Call) → CanAsk call → AllByRecursion IsWhole (answers_to around role now call) }
    ensures asked { (call : asks.Call) → IsAskable call → CanAsk (asked call) }
{}

/// What a call leaves known is that of the past with its transition, whatever the role.
#[tactic(auto, using(crate::proofs::RoleLaws::knows_on, crate::proofs::RoleLaws::agent_knows_on, crate::proofs::RoleLaws::mobile_knows_on))]
pub fn roles_stand_for_their_pasts()
    ensures correspondent { (me : Identity) (now room numbers : ℕ) (past : List (Stamped correspondent_steps.Step)) (call : correspondents.Call)
        → (correspondent_doing.transition_of me (correspondent_questions.known room numbers past) now call).known
        ≡ correspondent_questions.known room numbers (correspondent_transitions.with_transition past (correspondent_doing.transition_of me (correspondent_questions.known room numbers past) now call)) }
    ensures agent { (me : agent.Identity) (now : ℕ) (serves : List Address) (past : List (Stamped agent_steps.Step)) (call : agents.Call)
        → (agent_doing.transition_of me (agent_questions.known serves past) now call).known
        ≡ agent_questions.known serves (agent_transitions.with_transition past (agent_doing.transition_of me (agent_questions.known serves past) now call)) }
    ensures mobile { (now : ℕ) (home : Address) (declared : Option Address) (numbers : ℕ) (secrets : Life) (past : List (Stamped mobile_steps.Step)) (call : mobiles.Call)
        → (mobile_doing.transition_of (mobile_questions.known home declared numbers secrets past) now call).known
        ≡ mobile_questions.known home declared numbers secrets (mobile_transitions.with_transition past (mobile_doing.transition_of (mobile_questions.known home declared numbers secrets past) now call)) }
{}

/// With nothing behind it, each knows what a new one does, whose last moment is 0.
#[tactic(auto, using(crate::proofs::RoleLaws::known_first, crate::proofs::RoleLaws::agent_known_first, crate::proofs::RoleLaws::mobile_known_first, crate::proofs::RoleLaws::new_last))]
pub fn new_roles_have_nothing_behind_them()
    ensures correspondent { (room numbers : ℕ) → correspondent_questions.known room numbers [] ≡ correspondent_questions.fresh room numbers }
    ensures agent { (serves : List Address) → agent_questions.known serves [] ≡ agent_questions.fresh serves }
    ensures mobile { (home : Address) (declared : Option Address) (numbers : ℕ) (secrets : Life)
        → mobile_questions.known home declared numbers secrets [] ≡ mobile_questions.fresh home declared numbers secrets }
    ensures last { (seed : List ℕ) (numbers n life : ℕ) (own : Address) (kind : Kind) → last_of (new_role seed numbers n life own kind) ≡ 0 }
{}

/// A mobile keeps its home address through all its lives.
#[tactic(auto, using(crate::proofs::RoleLaws::mobile_home))]
pub fn mobiles_keep_their_home()
    ensures { (home : Address) (declared : Option Address) (numbers : ℕ) (secrets : Life) (past : List (Stamped mobile_steps.Step))
        → home_of (mobile_questions.known home declared numbers secrets past) ≡ home }
{}
