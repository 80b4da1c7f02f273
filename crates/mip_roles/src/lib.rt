//! A node of a run, whatever its role: a correspondent, a home agent or a mobile.
#![tactic(auto)]

mod agent;
mod binding_numbers;
mod call;
mod call_at;
mod correspondent;
mod host;
mod idle;
mod kind;
mod laws;
mod mobile;
mod mobile_role;
mod node;
mod place;
mod role;
mod router;

pub use binding_numbers::BindingNumbers;
pub use call::Call;
pub use call_at::CallAt;
pub use host::Host;
pub use kind::Kind;
pub use laws::{
    answers_are_whole, mobiles_keep_their_home, new_roles_have_nothing_behind_them,
    roles_stand_for_their_pasts,
};
pub use mip_homeagent::HomeRow;
pub use mobile_role::MobileRole;
pub use node::Node;
pub use place::NetPlace;
pub use role::Role;
pub use router::Router;
