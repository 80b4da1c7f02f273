//! What a schedule declares: links, nodes and outsiders, their names and their numbers; and the kinds of field that its lines have.
#![tactic(auto)]

mod declaration;
mod declarations;
mod few_declarations;
pub mod kinds;
mod line_fault;
mod name;
mod numbered;
mod places;
mod reason;

pub use declaration::Declaration;
pub use declarations::Declarations;
pub use few_declarations::FewDeclarations;
pub use line_fault::LineFault;
pub use name::Name;
pub use numbered::{link_name, node_name, outsider_name};
pub use places::{Sort, count, is_mobile, member, place_of};
pub use reason::{Reason, refused, too_many};
