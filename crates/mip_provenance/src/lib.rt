//! What stands behind each acceptance of a history: the tokens, the update and their packets, or why there is no such
//! origin.
#![tactic(auto)]

mod accepted_update;
mod causes;
mod claim;
mod firsts;
mod front;
mod known;
mod laws;
mod maker;
mod mark;
mod name;
mod names;
mod naming;
mod pair;
mod pairs;
mod post;
mod posts;
mod reached;
mod signed;
mod whole_history;

pub use accepted_update::AcceptedUpdate;
pub use claim::Claim;
pub use firsts::{number_posted, same_key};
pub use known::Known;
pub use laws::{forged_marks_have_their_cause, unforged_has_its_origin};
pub use maker::Maker;
pub use mark::Mark;
pub use name::Name;
pub use naming::Naming;
pub use pair::Pair;
pub use posts::{key_said, token_said};
pub use signed::Signed;
pub use whole_history::{WholeHistory, mark as mark_behind};
